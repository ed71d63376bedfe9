// The refusals that every event has, and whose turn it is.
ghost use Rattle.std.specs.Prelude.{◌≡◌};
ghost use Rattle.numbers.specs.Refusals.{answered, first_refusal};
ghost use Rattle.settlement.specs.Book.{all_shortfalls};
ghost use Rattle.settlement.specs.ByOwner.{read_off};
ghost use Rattle.settlement.specs.Events.{event_rows, is_out_of_turn};

use crate::{Book, Event, spoiled};
use numbers::{OWNERS, Refusal};

// The rows that every event has, 15 and 1 to 4. Gives all shortfalls together, which 1 looks at, so that an hour sums its cells once.
#[tactic(auto, unfolding(crate::specs::Events::event_rows, numbers::specs::Refusals::first_refusal))]
pub(crate) fn of_event(book: &Book, event: Event, places: usize) -> Result<u64, Refusal>
    ensures { result ≡ answered (first_refusal (event_rows event (read_off book.now) places)) 0 (all_shortfalls (read_off book.now)) }
{
    if calendar::is_outside(book.year) {
        return Err(Refusal::NoSuchYear);
    }
    let carry = numbers::capped_total(numbers::MOST_CENTS + 1, 0, &book.shortfalls);
    if spoiled::is_spoiled(book, carry) {
        return Err(Refusal::SpoiledBook);
    }
    if book.ended {
        return Err(Refusal::YearOver);
    }
    if is_out_of_turn(book, event) {
        return Err(Refusal::OutOfTurn);
    }
    if places != OWNERS {
        return Err(Refusal::WrongLength);
    }
    Ok(carry)
}

// Whether it is not the event's turn: a month end first, then the hours, and the year end last.
#[tactic(auto, unfolding(crate::specs::Events::is_out_of_turn))]
pub(crate) fn is_out_of_turn(book: &Book, event: Event) -> bool
    ensures { result ≡ is_out_of_turn event (read_off book.now) }
{
    let closing = calendar::is_month_end(book.year, book.hours, book.months);
    match event {
        Event::Hour => closing | (calendar::hours_in_year(book.year) <= book.hours),
        Event::MonthEnd => !closing,
        Event::YearEnd => book.months < calendar::MONTHS_IN_YEAR,
    }
}
