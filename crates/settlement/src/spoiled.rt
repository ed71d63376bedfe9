// Whether a book is spoiled. Its numbers are any, so no sum is made that could wrap.
ghost use Rattle.std.specs.Prelude.{◌+◌, ◌≤◌, ◌≡◌, min};
ghost use Rattle.numbers.specs.Limits.{most_cents};
ghost use Rattle.calendar.proofs.AlmanacLaws.{most_hours};
ghost use Rattle.settlement.specs.Book.{all_shortfalls, last_end, off_month, out_of_step, is_out_of_bounds, is_spoiled};
ghost use Rattle.settlement.specs.ByOwner.{read_off};

use crate::{Book, LEAST_COLLECTED, MOST_COLLECTED};

// The most that one hour can bring: the largest amount collected and the most charges.
const MOST_BROUGHT: i64 = MOST_COLLECTED + numbers::MOST_CENTS as i64;

// Refusal 1: by the counts and the mark, by all shortfalls together, which are given, or by the balances, whose sum is made only where each is
// within bounds.
#[tactic(auto, unfolding(crate::specs::Book::is_spoiled))]
pub(crate) fn is_spoiled(book: &Book, carry: u64) -> bool
    requires { carry ≡ min (all_shortfalls (read_off book.now)) (most_cents + 1) }
    ensures { result ≡ is_spoiled (read_off book.now) }
{
    if is_out_of_step(book.year, book.hours, book.months, book.ended) {
        return true;
    }
    if carry > numbers::MOST_CENTS {
        return true;
    }
    if is_out_of_bounds(book.hours, book.monthbalance) {
        return true;
    }
    if is_out_of_bounds(book.hours, book.yearbalance) {
        return true;
    }
    is_out_of_bounds(book.hours, book.monthbalance + book.yearbalance)
}

// Whether a balance is less than so many hours can take, or more than they can bring.
fn is_out_of_bounds(hours: u64, balance: i64) -> bool
    requires { hours ≤ most_hours }
    ensures { result ≡ is_out_of_bounds hours balance }
{
    let hours = hours.cast_signed();
    (balance < hours * LEAST_COLLECTED) | (hours * MOST_BROUGHT < balance)
}

// Whether the hours settled, the months closed and the mark are none that can stand together in a year.
#[tactic(auto, unfolding(crate::specs::Book::out_of_step))]
fn is_out_of_step(year: u64, hours: u64, months: u64, ended: bool) -> bool
    ensures { result ≡ out_of_step year hours months ended }
{
    if hours > calendar::hours_in_year(year) {
        return true;
    }
    if months > calendar::MONTHS_IN_YEAR {
        return true;
    }
    if is_off_month(year, hours, months) {
        return true;
    }
    if (months == calendar::MONTHS_IN_YEAR) & (hours != calendar::hours_in_year(year)) {
        return true;
    }
    ended & (months < calendar::MONTHS_IN_YEAR)
}

// Whether the hours stand outside the month that is open.
fn is_off_month(year: u64, hours: u64, months: u64) -> bool
    ensures { result ≡ off_month year hours months }
{
    (months < calendar::MONTHS_IN_YEAR)
        & !((last_end(year, months) <= hours) & (hours <= calendar::month_end(year, months)))
}

// The hours at the end of the last closed month; 0 if none is closed, as the definition has it, since the months begin at hour 0.
fn last_end(year: u64, months: u64) -> u64
    ensures { result ≡ last_end year months }
{
    if months == 0 {
        return 0;
    }
    calendar::month_end(year, months - 1)
}
