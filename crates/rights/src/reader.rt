// The reader over the lent rights file: it holds the file and the number of the next record.
ghost use Rattle.std.specs.Prelude.{◌≡◌};
ghost use Rattle.rights.specs.Reader.{IsStep, records_left};

use crate::{RECORD_BYTES, Right};
use numbers::Refusal;

// The year, the lent rights file, and the number of the next record: any year, any bytes, any number.
#[derive(Clone, Copy)]
pub struct Reader<'a> {
    pub year: u64,
    pub file: &'a [u8],
    pub next: u64,
}

impl<'a> Reader<'a> {
    // A reader that stands at a file's first record.
    pub fn new(year: u64, file: &'a [u8]) -> Reader<'a>
        ensures { (result.year ≡ year) × (result.file ≡ file.entry) × (result.next ≡ 0) }
    {
        Reader {
            year,
            file,
            next: 0,
        }
    }
}

// What stands at the reader's number: the record, or its refusal; none where every record has been given. For a year outside the calendar's, and
// over a file of wrong length, it gives that refusal and has no end.
impl<'a> Iterator for Reader<'a> {
    type Item = Result<Right, Refusal>;

    ghost next_gives = { λ before given after. (after.year ≡ before.year) × (after.file ≡ before.file) × IsStep before.year before.file.now before.next given after.next };

    ghost remaining = { λ reader. records_left reader.year reader.file.now reader.next };

    fn next(&mut self) -> Option<Result<Right, Refusal>> {
        let number = self.next;
        if calendar::is_outside(self.year) {
            return Some(Err(Refusal::NoSuchYear));
        }
        if crate::wrong_length(self.file.len()) {
            return Some(Err(Refusal::WrongLength));
        }
        // By `as`: there is no `From` from an index to 64 bits.
        if (self.file.len() / RECORD_BYTES) as u64 <= number {
            return None;
        }
        self.next = number + 1;
        Some(crate::read(self.year, self.file, number))
    }
}
