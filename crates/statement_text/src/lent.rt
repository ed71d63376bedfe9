// A lent buffer that text is written into, piece behind piece.
ghost use Rattle.std.specs.Prelude.{◌≡◌, ◌+◌, ◌<◌, ◌≤◌, length, nat_le};
ghost use Rattle.statement_text.specs.InnerContracts.{Put, most_digits, pair};
ghost use Rattle.statement_text.specs.Text.{digits, field, field_room, signed_field};

use itoa::Buffer;

// The two digits of each number below 100.
static PAIRS: [u8; 200] =
    *b"00010203040506070809101112131415161718192021222324252627282930313233343536373839404142434445464748495051525354555657585960616263646566676869707172737475767778798081828384858687888990919293949596979899";

// The buffer, and where the text written so far ends. Who opens one asks for its room and makes it in two steps. Tried in one, by a
// function that gives a text or none: no proof learns what a lent slice ends as behind a reference in an `Option` or a `Result`. An opening
// that is given what to write would need clauses on what that keeps, and is no plainer. Each piece asks for a room of its own, so that no
// field can hold that there is room.
#[derive(Drop)]
pub(crate) struct Text<'a> {
    pub(crate) bytes: &'a mut [u8],
    pub(crate) end: usize,
}

impl Text<'_> {
    // The bytes as they are.
    pub(crate) fn put(&mut self, piece: &[u8])
        requires { self.old.end + length piece.now ≤ length self.old.bytes.now }
        ensures { Put piece.now self.old self.new }
    {
        let end = self.end + piece.len();
        self.bytes[self.end..end].copy_from_slice(piece);
        self.end = end;
    }

    // A blank, then the number. Inline, as are `signed_field` and `digits`, so that the compiler works out what the digits of an event's number need
    // once, and not in each line.
    #[inline(always)]
    pub(crate) fn field(&mut self, number: u64)
        requires { self.old.end + field_room ≤ length self.old.bytes.now }
        ensures put { Put (field number) self.old self.new }
        ensures short { self.new.end ≤ self.old.end + field_room }
    {
        self.put(b" ");
        self.digits(number);
    }

    // A blank, then the number with its minus sign. It asks for a byte more than it takes: `digits` asks for room for 20, and a signed number has 19
    // at most.
    #[inline(always)]
    pub(crate) fn signed_field(&mut self, number: i64)
        requires { self.old.end + field_room + 1 ≤ length self.old.bytes.now }
        ensures put { Put (signed_field number) self.old self.new }
        ensures short { self.new.end ≤ self.old.end + field_room }
    {
        if number < 0 {
            self.put(b" -");
        } else {
            self.put(b" ");
        }
        self.digits(number.unsigned_abs());
    }

    // The digits alone, below 1,000,000 two at a time from the first: in pieces of constant length, so that no call copies them.
    #[inline(always)]
    fn digits(&mut self, number: u64)
        requires { self.old.end + most_digits ≤ length self.old.bytes.now }
        ensures { Put (digits number) self.old self.new }
    {
        if number < 100 {
            return self.first(number);
        }
        if number < 10_000 {
            self.first(number / 100);
            return self.pair(number % 100);
        }
        if number < 1_000_000 {
            let four = number % 10_000;
            self.first(number / 10_000);
            self.pair(four / 100);
            return self.pair(four % 100);
        }
        self.large(number);
    }

    // The digits of a number below 100: one or two. By `as`: one digit fits a byte.
    fn first(&mut self, number: u64)
        requires { (number < 100) × (self.old.end + 2 ≤ length self.old.bytes.now) }
        ensures put { Put (digits number) self.old self.new }
        ensures short { self.new.end ≤ self.old.end + 2 }
    {
        if number < 10 {
            self.put(&[b'0' + number as u8]);
        } else {
            self.pair(number);
        }
    }

    // The two digits of a number below 100, the first of which may be 0. By `as`: it is an index.
    fn pair(&mut self, number: u64)
        requires { (number < 100) × (self.old.end + 2 ≤ length self.old.bytes.now) }
        ensures { Put (pair number) self.old self.new }
    {
        let at = number as usize * 2;
        self.put(&[PAIRS[at], PAIRS[at + 1]]);
    }

    // The digits of any number, asked for from 1,000,000 on: few lines have such, so that the compiler keeps this out of the way. They are itoa's,
    // since no clause of `write!` says that it succeeds.
    #[cold]
    #[inline(never)]
    fn large(&mut self, number: u64)
        requires { self.old.end + most_digits ≤ length self.old.bytes.now }
        ensures { Put (digits number) self.old self.new }
    {
        let mut digits = Buffer::new();
        self.put(digits.format(number).as_bytes());
    }
}

// Whether a buffer of so many bytes has so much room behind a place.
pub fn has_room(bytes: usize, at: usize, room: usize) -> bool
    ensures { result ≡ nat_le (at + room) bytes }
{
    at <= bytes && room <= bytes - at
}
