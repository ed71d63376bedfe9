// The rights file: 16-byte records, read and written by number, and the faults of a whole file.

#![tactic(auto)]

ghost use Rattle.std.specs.Prelude.{◌≡◌, ◌++◌, eqb, not};
ghost use Rattle.numbers.specs.Refusals.{answered};
ghost use Rattle.numbers.specs.Words.{bytes_of};
ghost use Rattle.rights.specs.Layout.{is_good, is_live, is_wrong_length, laid_out, read_refusal, record_refusal, right_at, right_from};
ghost use Rattle.rights.specs.RecordWords.{high_word, low_word, right_of};
ghost use Rattle.rights.specs.Writing.{file_after};
ghost use Rattle.rights.specs.GoodParts.{is_sound, is_within_limits};
ghost use Rattle.rights.specs.InnerContracts.{other_class};
ghost use Rattle.rights.specs.Faults.{faulty_record, file_refusal, is_unpriced};

use calendar::OperatingHour;
use numbers::Refusal;

mod reader;

pub use reader::Reader;

pub const RECORD_BYTES: usize = 16;

pub const FILE_BYTES: usize = 65_536;

// The records of the longest file.
pub const MOST_RECORDS: usize = FILE_BYTES / RECORD_BYTES;

// The bytes of a word, of which a record has two.
const WORD_BYTES: usize = 8;

// The largest size of a right, in tenths of a megawatt.
const MOST_SIZE: u32 = 100000;

// Powers of 256. A word divided by such a power is without so many low bytes, and the remainder is what these hold.
const BYTES_1: u64 = 256;

const BYTES_2: u64 = 65_536;

const BYTES_4: u64 = 4_294_967_296;

const BYTES_6: u64 = 281_474_976_710_656;

const BYTES_7: u64 = 72_057_594_037_927_936;

// The kinds of a right, by the byte that stands for each.
#[derive(Clone, Copy, Debug, PartialEq, Eq)]
pub enum Kind {
    Obligation = 0,
    Option = 1,
}

// The classes of a right, by the byte that stands for each.
#[derive(Clone, Copy, Debug, PartialEq, Eq)]
pub enum Class {
    Peak = 0,
    OffPeak = 1,
    AllHours = 2,
}

// One record of the file: eight fields of any values. Kind and class are the bytes that stand there, which may be those of none.
#[derive(Clone, Copy)]
pub struct Right {
    pub owner: u16,
    pub source: u16,
    pub sink: u16,
    pub kind: u8,
    pub class: u8,
    pub size: u32,
    pub first: u16,
    pub last: u16,
}

// The two words of a record: its bytes 0 to 7, and 8 to 15.
#[derive(Clone, Copy)]
pub struct Words {
    pub low: u64,
    pub high: u64,
}

impl Words {
    // The two words of a record's bytes; the fields cut from them are the layout's.
    pub fn from_le_bytes(bytes: &[u8; RECORD_BYTES]) -> Words
        ensures words { (result.low ≡ low_word bytes.now 0) × (result.high ≡ high_word bytes.now 0) }
        ensures fields { right_of result.low result.high ≡ right_from bytes.now 0 }
    {
        let low = u64::from_le_bytes(*bytes.first_chunk().unwrap());
        let high = u64::from_le_bytes(*bytes.last_chunk().unwrap());
        Words { low, high }
    }

    // The 16 bytes of the two words: the opposite of `from_le_bytes`.
    fn to_le_bytes(self) -> [u8; RECORD_BYTES]
        ensures { result ≡ bytes_of 8 self.low ++ bytes_of 8 self.high }
    {
        let mut bytes = [0; RECORD_BYTES];
        bytes[..WORD_BYTES].copy_from_slice(&self.low.to_le_bytes());
        bytes[WORD_BYTES..].copy_from_slice(&self.high.to_le_bytes());
        bytes
    }

    // The two words that the fields of a right make, each in its own bytes: the opposite of `cut`. Their bytes are the layout's.
    fn from_right(right: Right) -> Words
        ensures fields { right_of result.low result.high ≡ right }
        ensures bytes { bytes_of 8 result.low ++ bytes_of 8 result.high ≡ laid_out right }
    {
        let low = u64::from(right.owner)
            + u64::from(right.source) * BYTES_2
            + u64::from(right.sink) * BYTES_4
            + u64::from(right.kind) * BYTES_6
            + u64::from(right.class) * BYTES_7;
        let high = u64::from(right.size)
            + u64::from(right.first) * BYTES_4
            + u64::from(right.last) * BYTES_6;
        Words { low, high }
    }

    // The eight fields, each from its own bytes of the low or the high word. By `as`: each fits, and `try_from` would add cases that cannot
    // come, in the loop that takes the time.
    pub fn cut(self) -> Right
        ensures { result ≡ right_of self.low self.high }
    {
        let low = self.low;
        let high = self.high;
        Right {
            owner: (low % BYTES_2) as u16,
            source: (low / BYTES_2 % BYTES_2) as u16,
            sink: (low / BYTES_4 % BYTES_2) as u16,
            kind: (low / BYTES_6 % BYTES_1) as u8,
            class: (low / BYTES_7 % BYTES_1) as u8,
            size: (high % BYTES_4) as u32,
            first: (high / BYTES_4 % BYTES_2) as u16,
            last: (high / BYTES_6 % BYTES_2) as u16,
        }
    }

    // Whether each field of the record has a good value, in a year with so many days.
    #[tactic(auto, using(crate::proofs::Good::good_parts))]
    pub fn is_good(self, days: u64) -> bool
        ensures { result ≡ is_good days (right_of self.low self.high) }
    {
        self.is_within_limits() & self.is_sound() & (u64::from(self.cut().last) <= days)
    }

    // Whether owner, source, sink and kind are within their limits. These are powers of two: asked of the word, and not of the fields cut from it,
    // it is one test for the compiler, that the bits above the limits are 0; and words joined bit by bit have none there where none of them has.
    // By `as`: of a constant of the other width, and of an enum, whose byte the language gives so.
    pub fn is_within_limits(self) -> bool
        ensures { result ≡ is_within_limits (right_of self.low self.high) }
    {
        let low = self.low;
        (low % BYTES_2 < numbers::OWNERS as u64)
            & (low / BYTES_2 % BYTES_2 < numbers::NODES as u64)
            & (low / BYTES_4 % BYTES_2 < numbers::NODES as u64)
            & (low / BYTES_6 % BYTES_1 <= Kind::Option as u64)
    }

    // Whether the sink is not the source, the class and the size are good, and the first day is from 1 to the last.
    pub fn is_sound(self) -> bool
        ensures { result ≡ is_sound (right_of self.low self.high) }
    {
        let right = self.cut();
        self.has_two_nodes()
            & (right.class <= Class::AllHours as u8)
            & ((1 <= right.size) & (right.size <= MOST_SIZE))
            & (1 <= right.first)
            & (right.first <= right.last)
    }

    // Whether the sink is not the source. The word xor itself moved down by two bytes has source xor sink in its bytes 2 and 3, so that its lower
    // four bytes are 65,536 at least where the two differ. For the compiler that is one shift, where two fields would be cut out.
    #[tactic(auto, using(crate::proofs::Nodes::nodes_differ))]
    fn has_two_nodes(self) -> bool
        ensures { result ≡ not (eqb (right_of self.low self.high).sink (right_of self.low self.high).source) }
    {
        BYTES_2 <= (self.low ^ (self.low / BYTES_2)) % BYTES_4
    }
}

// The record of a number, from 0: any year, any bytes, any number. By `as`, here and below: there is no `From` between 64 bits and an index.
pub fn read(year: u64, file: &[u8], number: u64) -> Result<Right, Refusal>
    ensures { result ≡ answered (read_refusal year file.now number) number (right_at file.now number) }
{
    if calendar::is_outside(year) {
        return Err(Refusal::NoSuchYear);
    }
    if wrong_length(file.len()) {
        return Err(Refusal::WrongLength);
    }
    let (records, _) = file.as_chunks::<RECORD_BYTES>();
    let Some(record) = records.get(number as usize) else {
        return Err(Refusal::WrongLength);
    };
    let words = Words::from_le_bytes(record);
    if words.is_good(calendar::days_in_year(year)) {
        Ok(words.cut())
    } else {
        Err(Refusal::BadRight(number))
    }
}

// Writes a right as the record of a number: any year, any bytes, any number, any eight values.
pub fn write(year: u64, file: &mut [u8], number: u64, right: Right) -> Result<(), Refusal>
    ensures value { result ≡ answered (record_refusal year file.old number right) number tt }
    ensures file_after { file.new ≡ file_after year file.old number right }
{
    if calendar::is_outside(year) {
        return Err(Refusal::NoSuchYear);
    }
    if wrong_length(file.len()) {
        return Err(Refusal::WrongLength);
    }
    if (file.len() / RECORD_BYTES) as u64 <= number {
        return Err(Refusal::WrongLength);
    }
    let words = Words::from_right(right);
    if !words.is_good(calendar::days_in_year(year)) {
        return Err(Refusal::BadRight(number));
    }
    let at = number as usize * RECORD_BYTES;
    file[at..at + RECORD_BYTES].copy_from_slice(&words.to_le_bytes());
    Ok(())
}

// Whether so many bytes can be no rights file.
pub fn wrong_length(bytes: usize) -> bool
    ensures { result ≡ is_wrong_length bytes }
{
    (bytes % RECORD_BYTES != 0) | (FILE_BYTES < bytes)
}

// Whether a node of the right has no price among so many.
pub fn is_unpriced(right: Right, prices: usize) -> bool
    ensures { result ≡ is_unpriced prices right }
{
    (prices <= usize::from(right.source)) | (prices <= usize::from(right.sink))
}

// Whether the right is live in an hour. Here and in `is_sound`, a class is turned to its byte by `as`, which the language does so.
pub fn is_live(right: Right, hour: OperatingHour) -> bool
    ensures { result ≡ is_live hour right }
{
    (right.class != other_class(hour.peak) as u8)
        & (right.class <= Class::AllHours as u8)
        & (right.first <= hour.day)
        & (hour.day <= right.last)
}

// The class that does not fit: off-peak in a peak hour, peak in an off-peak one.
fn other_class(peak: bool) -> Class
    ensures { result ≡ other_class peak }
{
    if peak { Class::OffPeak } else { Class::Peak }
}

// The first refusal that a file calls for in a year, with so many prices; it names the first record that has the fault. With all 1,024
// prices an hour asks for it only where it is refused, so that the compiler keeps it out of the way.
#[cold]
pub fn file_fault(year: u64, file: &[u8], prices: usize) -> Result<(), Refusal>
    ensures { result ≡ answered (file_refusal year prices file.now) (faulty_record year prices file.now (file_refusal year prices file.now)) tt }
{
    if calendar::is_outside(year) {
        return Err(Refusal::NoSuchYear);
    }
    if wrong_length(file.len()) {
        return Err(Refusal::WrongLength);
    }
    let (records, _) = file.as_chunks::<RECORD_BYTES>();
    let days = calendar::days_in_year(year);
    let mut unpriced = None;
    for (number, record) in records.iter().enumerate() {
        let words = Words::from_le_bytes(record);
        if !words.is_good(days) {
            return Err(Refusal::BadRight(number as u64));
        }
        let here = is_unpriced(words.cut(), prices).then_some(number as u64);
        unpriced = unpriced.or(here);
    }
    match unpriced {
        Some(number) => Err(Refusal::UnpricedNode(number)),
        None => Ok(()),
    }
}
