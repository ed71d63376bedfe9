// What a call gives beside its number, in words, written into its report; and the right that a host's words stand for.
ghost use Rattle.std.specs.Prelude.{◌^◌, ◌<◌, ◌≡◌, min, cond, [], ◌∷◌, ◌++◌, length};
ghost use Rattle.calendar.specs.Almanac.{is_outside};
ghost use Rattle.numbers.specs.Refusals.{answer_number, answer_record};
ghost use Rattle.rights.specs.Reader.{given_right, says_none};
ghost use Rattle.pupcopper.specs.Calls.{hour_report, right_in, right_report, settled_report, is_wrong_report};
ghost use Rattle.pupcopper.specs.InnerContracts.{held};

use calendar::OperatingHour;
use numbers::Refusal;
use rights::Right;

// The words of each report: day, month and class; the days of a year; the eight fields; those, the next record number and whether none is left; the
// record number; what is left; the record number, F and D.
pub(crate) const HOUR_WORDS: usize = 3;

pub(crate) const TABLE_WORDS: usize = 1;

pub(crate) const RIGHT_WORDS: usize = 8;

pub(crate) const STEP_WORDS: usize = RIGHT_WORDS + 2;

pub(crate) const OUTCOME_WORDS: usize = 1;

pub(crate) const ALLOCATION_WORDS: usize = 1;

pub(crate) const SETTLED_WORDS: usize = 3;

// The number of what a call answers: 0 where it is accepted. This and the record are one line each: a function that is given the method of
// the refusal is no plainer.
pub(crate) fn number_of<T: Copy>(outcome: Result<T, Refusal>) -> u8
    ensures { result ≡ answer_number outcome }
{
    outcome.err().map_or(0, Refusal::number)
}

// The record that it names, or 0.
pub(crate) fn record_of<T: Copy>(outcome: Result<T, Refusal>) -> u64
    ensures { result ≡ answer_record outcome }
{
    outcome.err().map_or(0, Refusal::record)
}

// The number of a wrong length in a call that is given a year: 15 comes before it.
pub(crate) fn wrong_length(year: u64) -> u8
    ensures { result ≡ cond (is_outside year) 15 4 }
{
    if calendar::is_outside(year) {
        return Refusal::NoSuchYear.number();
    }
    Refusal::WrongLength.number()
}

// The words of an hour, and below of a right. By hand: there is no `From` between another crate's struct and an array.
pub(crate) fn of_hour(hour: OperatingHour) -> [u64; HOUR_WORDS]
    ensures { result ≡ hour_report hour }
{
    [
        u64::from(hour.day),
        u64::from(hour.month),
        u64::from(hour.peak),
    ]
}

// The eight fields.
pub(crate) fn of_right(right: Right) -> [u64; RIGHT_WORDS]
    ensures { result ≡ right_report right }
{
    [
        u64::from(right.owner),
        u64::from(right.source),
        u64::from(right.sink),
        u64::from(right.kind),
        u64::from(right.class),
        u64::from(right.size),
        u64::from(right.first),
        u64::from(right.last),
    ]
}

// The right that eight words stand for. A value that its field cannot hold becomes the largest that it can, which is no good value either,
// so that the words are refused for it.
pub(crate) fn right_of(words: &[u64]) -> Right
    requires { length words.now ≡ 8 }
    ensures { result ≡ held (right_in words.now) }
{
    Right {
        owner: held_by_16(words[0]),
        source: held_by_16(words[1]),
        sink: held_by_16(words[2]),
        kind: held_by_8(words[3]),
        class: held_by_8(words[4]),
        size: u32::try_from(words[5]).unwrap_or(u32::MAX),
        first: held_by_16(words[6]),
        last: held_by_16(words[7]),
    }
}

// A value, or the largest that 16 bits hold; below, that 8 bits hold.
fn held_by_16(value: u64) -> u16
    ensures { result ≡ min value 65_535 }
{
    u16::try_from(value).unwrap_or(u16::MAX)
}

fn held_by_8(value: u64) -> u8
    ensures { result ≡ min value 255 }
{
    u8::try_from(value).unwrap_or(u8::MAX)
}

// Those of what a reader gives, zeros if it gives none; then where it stands, and 1 if it says that there is none.
pub(crate) fn of_step(given: Option<Result<Right, Refusal>>, next: u64) -> [u64; STEP_WORDS]
    ensures { result ≡ right_report (given_right given) ++ (next ∷ cond (says_none given) 1 0 ∷ []) }
{
    let mut words = [0; STEP_WORDS];
    if let Some(Ok(right)) = given {
        words[..RIGHT_WORDS].copy_from_slice(&of_right(right));
    }
    words[RIGHT_WORDS] = next;
    words[RIGHT_WORDS + 1] = u64::from(given.is_none());
    words
}

// The words of an event: the record number, F with its sign, and D, numbers for the C interface.
pub(crate) fn of_event(faulty: u64, fund: i64, demand: u64) -> [i64; SETTLED_WORDS]
    requires amounts_fit { (faulty < 2 ^ 63) × (demand < 2 ^ 63) }
    ensures { result ≡ settled_report faulty fund demand }
{
    [faulty.cast_signed(), fund, demand.cast_signed()]
}

// Writes these words, if the report has their places.
pub(crate) fn write<T: Copy, const N: usize>(words: [T; N], report: &mut [T])
    ensures { report.new ≡ cond (is_wrong_report N (length report.old)) report.old words }
{
    if report.len() == N {
        report.copy_from_slice(&words);
    }
}
