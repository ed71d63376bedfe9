// The operating year, 1 June to 31 May, of any year from 2025 to 2099: which day, month and class an hour has, and the table of its days.

#![tactic(auto)]

ghost use Rattle.std.specs.Prelude.{◌≡◌, ◌≤◌, ◌<◌, ◌&&◌, false, leb, length};
ghost use Rattle.numbers.specs.Lists.{list_below};
ghost use Rattle.numbers.specs.Refusals.{answered};
ghost use Rattle.calendar.specs.Almanac.{days_in_year, first_year, is_outside};
ghost use Rattle.calendar.specs.Year.{calendar_refusal, day_entry, hours_in_year, is_month_end, month_end, month_of, operating_hour, table_after, table_refusal};

use numbers::Refusal;

mod almanac;
mod days;

pub use almanac::days_in_year;

// The years of the calendar, each named by the one in which its June stands.
pub const FIRST_YEAR: u64 = 2025;

pub const LAST_YEAR: u64 = 2099;

pub const MONTHS_IN_YEAR: u64 = 12;

const HOURS_IN_DAY: u64 = 24;

// The first month that ends later in a year with a 29 February, which is February itself.
const FEBRUARY: u64 = 8;

// The hours after which each month ends, in a year without a 29 February.
const MONTH_ENDS: [u64; 12] = [
    720, 1464, 2208, 2928, 3672, 4392, 5136, 5880, 6552, 7296, 8016, 8760,
];

// The day, the month and the class of an hour.
#[derive(Clone, Copy)]
pub struct OperatingHour {
    pub day: u16,
    pub month: u8,
    pub peak: bool,
}

// The calendar call: any year, any hour number.
#[tactic(auto, using(crate::proofs::Hours::answers, crate::proofs::AlmanacLaws::days_most))]
pub fn operating_hour(year: u64, hour: u64) -> Result<OperatingHour, Refusal>
    ensures { result ≡ answered (calendar_refusal year hour) 0 (operating_hour year hour) }
{
    if is_outside(year) {
        return Err(Refusal::NoSuchYear);
    }
    if hours_in_year(year) <= hour {
        return Err(Refusal::OutOfTurn);
    }
    let before = hour / HOURS_IN_DAY;
    let entry = day_entry(year, before);
    // By `as`: the day is at most 366, and `try_from` would add a case that cannot come.
    Ok(OperatingHour {
        day: (before + 1) as u16,
        month: entry / 2,
        peak: peak_in(entry % 2 == 1, hour % HOURS_IN_DAY),
    })
}

// The day table of a year: an entry for each day, as the constant table has them for 2025. Gives the number of days. A longer table keeps
// the entries behind them.
pub fn day_table(year: u64, table: &mut [u8]) -> Result<u64, Refusal>
    ensures value { result ≡ answered (table_refusal year (length table.old)) 0 (days_in_year year) }
    ensures table_after { table.new ≡ table_after year table.old }
{
    if is_outside(year) {
        return Err(Refusal::NoSuchYear);
    }
    let days = days_in_year(year);
    // By `as`: there is no `From` from 64 bits to an index, here and below.
    if table.len() < days as usize {
        return Err(Refusal::WrongLength);
    }
    write_days(year, &mut table[..days as usize]);
    Ok(days)
}

// Whether a year is none of the calendar's.
pub fn is_outside(year: u64) -> bool
    ensures { result ≡ is_outside year }
{
    (year < FIRST_YEAR) | (LAST_YEAR < year)
}

// The hours of a year, 8,760 or 8,784: any number as a year.
#[tactic(auto, using(crate::proofs::AlmanacLaws::days_most))]
pub fn hours_in_year(year: u64) -> u64
    ensures { result ≡ hours_in_year year }
{
    HOURS_IN_DAY * days_in_year(year)
}

// Writes the entry of each day.
fn write_days(year: u64, table: &mut [u8])
    requires { (is_outside year ≡ false) × (length table.old ≤ days_in_year year) }
    ensures { table.new ≡ list_below (day_entry year) (length table.old) }
{
    for (before, entry) in table.iter_mut().enumerate() {
        *entry = made_entry(year, before as u64);
    }
}

// The entry of the day that has this many days before it. For 2025 it stands in the constant table; no table is made to find one.
fn day_entry(year: u64, before: u64) -> u8
    requires { (is_outside year ≡ false) × (before < days_in_year year) }
    ensures { result ≡ day_entry year before }
{
    if year == FIRST_YEAR {
        constant_entry(before)
    } else {
        made_entry(year, before)
    }
}

// The constant table's entry. One number for month and working day: 365 entries with two fields each would be no plainer to lay beside the
// calendar.
fn constant_entry(before: u64) -> u8
    requires { before < days_in_year first_year }
    ensures { result ≡ day_entry first_year before }
{
    days::DAYS[before as usize]
}

// The entry made by the rule.
#[tactic(auto, using(crate::proofs::AlmanacLaws::days_most, crate::proofs::Hours::month_most), unfolding(crate::specs::Year::day_entry))]
fn made_entry(year: u64, before: u64) -> u8
    requires { (is_outside year ≡ false) × (before < days_in_year year) }
    ensures { result ≡ day_entry year before }
{
    2 * month_of(year, before * HOURS_IN_DAY) + u8::from(almanac::is_working(year, before + 1))
}

// The month of an hour: how many months have ended by it.
fn month_of(year: u64, hour: u64) -> u8
    ensures { result ≡ month_of year hour }
{
    let mut ended = 0;
    for month in 0..MONTHS_IN_YEAR {
        ended += u8::from(month_end(year, month) <= hour);
    }
    ended
}

// Whether an hour of a day, counted from 0, is peak.
fn peak_in(working: bool, clock: u64) -> bool
    ensures { result ≡ (working && (leb 6 clock && leb clock 21)) }
{
    working & ((6 <= clock) & (clock <= 21))
}

// The hours after which a month of a year ends; 0 where there is no such month, as the definition has it.
pub fn month_end(year: u64, month: u64) -> u64
    ensures { result ≡ month_end year month }
{
    let Some(end) = MONTH_ENDS.get(month as usize) else {
        return 0;
    };
    let later = (FEBRUARY <= month) & almanac::has_leap_day(year);
    end + HOURS_IN_DAY * u64::from(later)
}

// Whether, with so many months closed, one is open and these hours stand at its end.
pub fn is_month_end(year: u64, hours: u64, months: u64) -> bool
    ensures { result ≡ is_month_end year hours months }
{
    (months < MONTHS_IN_YEAR) & (hours == month_end(year, months))
}
