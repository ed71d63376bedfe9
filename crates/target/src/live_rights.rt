// The one pass over the rights: each owner's sum of its rows. Nobody can foresee which records are live, so that a branch on it is guessed
// wrongly time and again. So the pass notes where the live records stand in the file, without a branch, and adds up these alone.
ghost use Rattle.std.specs.Prelude.{◌≡◌, ◌+◌, ◌*◌, ◌^◌, ◌≤◌, false, leb, length, ltb};
ghost use Rattle.numbers.specs.Limits.{owners};
ghost use Rattle.numbers.specs.Lists.{list_below};
ghost use Rattle.calendar.specs.Almanac.{is_outside, most_days};
ghost use Rattle.rights.specs.Layout.{is_wrong_length, record_bytes, right_from};
ghost use Rattle.target.specs.InnerContracts.{ArePriced, LiveNoted, added, any_unpriced, classes_that_fit, is_live_on, lacks_prices, live_sum, met_a_bad_one};
ghost use Rattle.target.specs.Target.{any_wild};

use crate::PricedRight;
use calendar::OperatingHour;
use numbers::OWNERS;
use rights::{Right, Words};

// How many values a last day's 16 bits have.
const DAY_VALUES: u64 = 1 << 16;

// What a search of the records has come to: where it stands in the file, and of the records before that how many are live, their low words
// joined bit by bit, and their last days, raised and joined. Joined words take no test for each record: they show afterwards whether one of them is
// bad.
#[derive(Clone, Copy)]
struct Noted {
    end: usize,
    live: usize,
    low: u64,
    late: u64,
}

impl Noted {
    // Whether a record of a file of so many bytes is bad: the one at which the search stopped, or one that it went past.
    fn met_a_bad_one(self, bytes: usize) -> bool
        ensures { result ≡ met_a_bad_one self bytes }
    {
        let joined = Words {
            low: self.low,
            high: 0,
        };
        (self.end < bytes) | !joined.is_within_limits() | (DAY_VALUES <= self.late)
    }
}

// Each owner's sum of its records' rows; none where some record is bad or unpriced.
pub(crate) fn add_rights(
    year: u64,
    rights: &[u8],
    prices: &[i32],
    hour: OperatingHour,
) -> Option<[i64; OWNERS]>
    requires { (is_outside year ≡ false) × (is_wrong_length (length rights.now) ≡ false) × (any_wild prices.now ≡ false) }
    ensures { result ≡ added year rights.now prices.now hour }
{
    if lacks_prices(rights, prices.len()) {
        return None;
    }
    let mut places = [0u16; rights::MOST_RECORDS];
    let noted = note_live(year, rights, hour, &mut places);
    if noted.met_a_bad_one(rights.len()) {
        return None;
    }
    Some(add_live(rights, prices, &places[..noted.live]))
}

// Whether there are so few prices that some record has a node without one. A good right's nodes are below 1,024: with as many prices none is
// missing, and the file is not looked through here.
fn lacks_prices(rights: &[u8], prices: usize) -> bool
    ensures { result ≡ lacks_prices prices rights.now }
{
    prices < numbers::NODES && any_unpriced(rights, prices)
}

// Whether some record has a node without a price. No early way out, and nothing else is looked at, so that the loop is short.
fn any_unpriced(rights: &[u8], prices: usize) -> bool
    ensures { result ≡ any_unpriced prices rights.now }
{
    let (records, _) = rights.as_chunks::<{ rights::RECORD_BYTES }>();
    let mut unpriced = false;
    for record in records {
        unpriced |= rights::is_unpriced(Words::from_le_bytes(record).cut(), prices);
    }
    unpriced
}

// Writes each record's place behind those of the live ones, where it stays if its record is live, up to the first record that is not sound. By `as`:
// a place is below 65,536. A function of its own in the program too, so that the loop has all registers.
#[inline(never)]
fn note_live(
    year: u64,
    rights: &[u8],
    hour: OperatingHour,
    places: &mut [u16; rights::MOST_RECORDS],
) -> Noted
    requires { is_wrong_length (length rights.now) ≡ false }
    ensures { LiveNoted year rights.now hour places.new result }
{
    let days = calendar::days_in_year(year);
    let fits = classes_that_fit(hour.peak);
    let mut noted = Noted {
        end: 0,
        live: 0,
        low: 0,
        late: 0,
    };
    // A `while` left by `break`: a return from the loop would have its answer made anew for each record.
    while noted.end < rights.len() {
        let words = Words::from_le_bytes(record_at(rights, noted.end));
        if !words.is_sound() {
            break;
        }
        let right = words.cut();
        noted.low |= words.low;
        noted.late |= raised(right.last, days);
        places[noted.live] = noted.end as u16;
        let day = day_if(fits[usize::from(right.class)], hour.day);
        noted.live += usize::from(is_live_on(right, day));
        noted.end += rights::RECORD_BYTES;
    }
    noted
}

// The record that begins at a place of the file.
fn record_at(rights: &[u8], place: usize) -> &[u8; rights::RECORD_BYTES]
    requires { place + record_bytes ≤ length rights.now }
    ensures { right_from result.now 0 ≡ right_from rights.now place }
{
    rights[place..place + rights::RECORD_BYTES]
        .first_chunk()
        .unwrap()
}

// A last day, raised by as much as the year's days leave below 2^16: one that is past them has a bit above these.
#[tactic(auto, using(crate::proofs::Search::raised))]
fn raised(last: u16, days: u64) -> u64
    requires { days ≤ most_days }
    ensures { ltb result (2 ^ 16) ≡ leb last days }
{
    u64::from(last) + (DAY_VALUES - 1 - days)
}

// For each class 1 if it fits, else 0. In bytes: for wider numbers the compiled loop cuts the class out of the word a second time.
fn classes_that_fit(peak: bool) -> [u8; 3]
    ensures { result ≡ classes_that_fit peak }
{
    if peak { [1, 0, 1] } else { [0, 1, 1] }
}

// The day, if a class fits; else 0, which comes before each first day. A product: whether it fits cannot be foreseen.
fn day_if(fits: u8, day: u16) -> u16
    requires { fits ≤ 1 }
    ensures { result ≡ day * fits }
{
    day * u16::from(fits)
}

// Whether a day is from a right's first to its last: one comparison, since a day before the first one wraps to 65,536 less what it lacks, which is
// more than any last day of 16 bits is past the first.
fn is_live_on(right: Right, day: u16) -> bool
    requires { right.first ≤ right.last }
    ensures { result ≡ is_live_on right day }
{
    day.wrapping_sub(right.first) <= right.last - right.first
}

// Each owner's sum of the cents of the live records at these places.
fn add_live(rights: &[u8], prices: &[i32], places: &[u16]) -> [i64; OWNERS]
    requires { ArePriced rights.now prices.now places.now }
    ensures { result ≡ list_below (live_sum rights.now prices.now places.now) owners }
{
    let mut sums = [0i64; OWNERS];
    for place in places {
        let right = Words::from_le_bytes(record_at(rights, usize::from(*place))).cut();
        PricedRight { right, prices }.add_to(&mut sums);
    }
    sums
}
