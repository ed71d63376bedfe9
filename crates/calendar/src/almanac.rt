// The almanac of a year: its leap day, the days of its holidays, and which days are working days.
ghost use Rattle.std.specs.Prelude.{◌≡◌, ◌^◌, ◌<◌, false};
ghost use Rattle.calendar.specs.Almanac.{days_in_year, first_from, has_leap_day, is_among, is_outside, is_working, june_weekday, kept_holidays, kept_on, weekday};

use crate::FIRST_YEAR;

// The days of a year without a 29 February.
const COMMON_DAYS: u64 = 365;

// The days of dates before the end of February, which are the same in every year.
const JULY_4: u64 = 34;

const SEPTEMBER_1: u64 = 93;

const NOVEMBER_1: u64 = 154;

const DECEMBER_25: u64 = 208;

const JANUARY_1: u64 = 215;

const SUNDAY: u64 = 0;

const MONDAY: u64 = 1;

const THURSDAY: u64 = 4;

const FRIDAY: u64 = 5;

// Whether the year has a 29 February, which is that of the next year; asked of this year's number, so that no number is too large.
pub(crate) fn has_leap_day(year: u64) -> bool
    ensures { result ≡ has_leap_day year }
{
    (year % 4 == 3) & ((year % 100 != 99) | (year % 400 == 399))
}

// The days of a year, 365 or 366: any number as a year.
#[tactic(auto, using(crate::proofs::AlmanacLaws::days_are))]
pub fn days_in_year(year: u64) -> u64
    ensures { result ≡ days_in_year year }
{
    COMMON_DAYS + u64::from(has_leap_day(year))
}

// Whether a day is Monday to Friday and no holiday is kept on it.
#[tactic(auto, unfolding(crate::specs::Almanac::is_working))]
pub(crate) fn is_working(year: u64, day: u64) -> bool
    requires { (is_outside year ≡ false) × (day < 2 ^ 32) }
    ensures { result ≡ is_working year day }
{
    let weekday = weekday(year, day);
    ((MONDAY <= weekday) & (weekday <= FRIDAY)) & !is_holiday(year, day)
}

// Whether a holiday is kept on a day.
#[tactic(auto, using(crate::proofs::AlmanacLaws::days_least, crate::proofs::AlmanacLaws::days_most, crate::proofs::AlmanacLaws::first_most, crate::proofs::AlmanacLaws::kept_is))]
fn is_holiday(year: u64, day: u64) -> bool
    requires { is_outside year ≡ false }
    ensures { result ≡ is_among day (kept_holidays year) }
{
    let last_week_of_may = days_in_year(year) - 6;
    (day == kept_on(year, JULY_4))
        | (day == kept_on(year, first_from(year, SEPTEMBER_1, MONDAY)))
        | (day == kept_on(year, first_from(year, NOVEMBER_1, THURSDAY) + 21))
        | (day == kept_on(year, DECEMBER_25))
        | (day == kept_on(year, JANUARY_1))
        | (day == kept_on(year, first_from(year, last_week_of_may, MONDAY)))
}

// The day on which a holiday is kept: the day after, if it is a Sunday.
#[tactic(auto, unfolding(crate::specs::Almanac::kept_on))]
fn kept_on(year: u64, day: u64) -> u64
    requires { (is_outside year ≡ false) × (day < 2 ^ 32) }
    ensures { result ≡ kept_on year day }
{
    day + u64::from(weekday(year, day) == SUNDAY)
}

// The first day that is this weekday, from a day on.
#[tactic(auto, using(crate::proofs::AlmanacLaws::weekday_small, crate::proofs::AlmanacLaws::first_is))]
fn first_from(year: u64, day: u64, wanted: u64) -> u64
    requires { (is_outside year ≡ false) × (day < 2 ^ 32) × (wanted < 7) }
    ensures { result ≡ first_from year day wanted }
{
    day + (wanted + 7 - weekday(year, day)) % 7
}

// The weekday of a day, 0 for Sunday.
#[tactic(auto, using(crate::proofs::AlmanacLaws::june_small), unfolding(crate::specs::Almanac::weekday))]
fn weekday(year: u64, day: u64) -> u64
    requires { (is_outside year ≡ false) × (day < 2 ^ 32) }
    ensures { result ≡ weekday year day }
{
    (june_weekday(year) + day + 6) % 7
}

// The weekday of 1 June: each year moves it on by a day, and each 29 February by one more, the first of which is in the third year.
#[tactic(auto, using(crate::proofs::AlmanacLaws::year_within, crate::proofs::AlmanacLaws::june_is))]
fn june_weekday(year: u64) -> u64
    requires { is_outside year ≡ false }
    ensures { result ≡ june_weekday year }
{
    let years = year - FIRST_YEAR;
    (years + (years + 1) / 4) % 7
}
