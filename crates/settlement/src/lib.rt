// The book of an operating year and its three events: hour, month end, year end.

#![tactic(auto)]

ghost use Rattle.std.specs.Prelude.{◌≡◌};
ghost use Rattle.settlement.specs.Book.{fresh as freshBook};
ghost use Rattle.settlement.specs.ByOwner.{laid_out, read_off, AnsweredByOwner};
ghost use Rattle.settlement.specs.Opening.{book_opening};
ghost use Rattle.settlement.specs.Events.{hour_call, month_end_call, year_end_call, is_due};
ghost use Rattle.settlement.specs.Ends.{end_call, event_at};

use numbers::{OWNERS, Refusal};

mod after;
mod cells;
mod events;
mod lines;
mod payment;
mod refusals;
mod spoiled;

// The least and the most cents collected in an hour.
pub(crate) const LEAST_COLLECTED: i64 = -4_000_000_000;

pub(crate) const MOST_COLLECTED: i64 = 4_000_000_000_000;

// The cells of all owners, two for each.
pub const CELLS: usize = 2 * OWNERS;

// The year, what is settled and what is open. Amounts are cents; a caller may hand over any book. The shortfalls are laid out by owner: owner i's
// month shortfall is the cell 2 i, its year shortfall the next one.
#[derive(Clone, Copy)]
pub struct Book {
    pub year: u64,
    pub hours: u64,
    pub months: u64,
    pub ended: bool,
    pub shortfalls: [u64; CELLS],
    pub monthbalance: i64,
    pub yearbalance: i64,
}

// What opening a book gives: the book, and whether there is such a year.
#[derive(Clone, Copy)]
pub struct Opened {
    pub book: Book,
    pub outcome: Result<(), Refusal>,
}

// What can happen to a book.
#[derive(Clone, Copy, Debug, PartialEq, Eq)]
pub enum Event {
    Hour,
    MonthEnd,
    YearEnd,
}

// The ends of a period, at which its shortfalls are paid from its balance.
#[derive(Clone, Copy, Debug, PartialEq, Eq)]
pub enum End {
    Month,
    Year,
}

impl From<End> for Event {
    ghost from_gives = { λ end event. event ≡ event_at end };

    fn from(end: End) -> Event {
        match end {
            End::Month => Event::MonthEnd,
            End::Year => Event::YearEnd,
        }
    }
}

// The fund F and the demand D of an accepted event.
#[derive(Clone, Copy, Debug, PartialEq, Eq)]
pub struct Funding {
    pub fund: i64,
    pub demand: u64,
}

// What an event gives beside the lines: the book after it, which is the one given where it is refused.
#[derive(Clone, Copy)]
pub struct Settled {
    pub book: Book,
    pub outcome: Result<Funding, Refusal>,
}

impl Book {
    // The book of a year before its first hour; a book all 0, year included, where the calendar has no such year.
    #[tactic(auto, unfolding(crate::specs::Book::opened, crate::specs::Book::year_refusal, numbers::specs::Refusals::first_refusal))]
    pub fn open(year: u64) -> Opened
        ensures { result ≡ book_opening year }
    {
        if calendar::is_outside(year) {
            return Opened {
                book: Book::fresh(0),
                outcome: Err(Refusal::NoSuchYear),
            };
        }
        Opened {
            book: Book::fresh(year),
            outcome: Ok(()),
        }
    }

    // The book before the first hour, of any number as a year.
    #[tactic(auto, unfolding(crate::specs::Book::fresh))]
    fn fresh(year: u64) -> Book
        ensures { result ≡ laid_out (freshBook year) }
    {
        Book {
            year,
            hours: 0,
            months: 0,
            ended: false,
            shortfalls: [0; CELLS],
            monthbalance: 0,
            yearbalance: 0,
        }
    }

    // Whether an event is due: the book is not ended, and it is the event's turn.
    #[tactic(auto, unfolding(crate::specs::Events::is_due))]
    pub fn is_due(self, event: Event) -> bool
        ensures { result ≡ is_due event (read_off self) }
    {
        !(self.ended | refusals::is_out_of_turn(&self, event))
    }

    // Settles the next hour: writes each owner's credit or charge, and puts what is unpaid and what is left into the month's cells.
    pub fn hour(
        mut self,
        rights: &[u8],
        prices: &[i32],
        collected: i64,
        lines: &mut [i64],
    ) -> Settled
        ensures { AnsweredByOwner (hour_call rights.now prices.now collected) self lines.old result.outcome result.book lines.new }
    {
        let outcome = self.settle_hour(rights, prices, collected, lines);
        Settled {
            book: self,
            outcome,
        }
    }

    // Pays the month's shortfalls from the month's balance; what is unpaid and what is left go to the year.
    pub fn month_end(mut self, lines: &mut [i64]) -> Settled
        ensures { AnsweredByOwner month_end_call self lines.old result.outcome result.book lines.new }
    {
        let outcome = self.pay_short(End::Month, lines);
        Settled {
            book: self,
            outcome,
        }
    }

    // Pays the year's shortfalls from the year's balance and ends the book.
    pub fn year_end(mut self, lines: &mut [i64]) -> Settled
        ensures { AnsweredByOwner year_end_call self lines.old result.outcome result.book lines.new }
    {
        let outcome = self.pay_short(End::Year, lines);
        Settled {
            book: self,
            outcome,
        }
    }

    // The month end or the year end. It ends as `hour` and the two ends do: one function that is given what settles would be no plainer.
    pub fn close(mut self, end: End, lines: &mut [i64]) -> Settled
        ensures { AnsweredByOwner (end_call end) self lines.old result.outcome result.book lines.new }
    {
        let outcome = self.pay_short(end, lines);
        Settled {
            book: self,
            outcome,
        }
    }
}
