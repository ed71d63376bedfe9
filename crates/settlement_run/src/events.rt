// The events of a block, on a run with room for their lines: each is settled on the run's book in place, and its lines are appended.
// That room is asked for by three functions: it is there before an event and no longer behind it, so that no field can hold it.
ghost use Rattle.std.specs.Prelude.{◌+◌, ◌≤◌, ◌≡◌, [], length};
ghost use Rattle.numbers.specs.Limits.{owners};
ghost use Rattle.settlement.specs.ByOwner.{read_off};
ghost use Rattle.settlement.specs.Ends.{end_call};
ghost use Rattle.statement_text.specs.Text.{event_room};
ghost use Rattle.settlement_run.specs.Run.{and_then, goes_on, hour_part, if_due, number_of, tag_of};
ghost use Rattle.settlement_run.specs.Calls.{standing};
ghost use Rattle.settlement_run.specs.InnerContracts.{Appended, answered_part, call_at, refused_part, with_refusal};

use crate::Run;
use numbers::{NODES, OWNERS, Refusal};
use settlement::{Book, End, Event, Funding};

impl Run {
    // The next hour, from its bytes.
    pub(crate) fn settle_hour(&mut self, rights: &[u8], block: &[u8], text: &mut [u8])
        requires { self.old.end + event_room owners ≤ length text.old }
        ensures { Appended (hour_part rights.now block.now (read_off self.old.book)) self.old text.old self.new text.new }
    {
        let hour = self.book.hours;
        if calendar::is_outside(self.book.year) {
            self.stop(Event::Hour, hour, Refusal::NoSuchYear);
            return;
        }
        let mut prices = [0i32; NODES];
        match hour_block::decode(block, &mut prices) {
            Ok(amount) => {
                let mut lines = [0i64; OWNERS];
                let outcome = self.book.settle_hour(rights, &prices, amount, &mut lines);
                self.print_event(Event::Hour, hour, outcome, &lines, text);
            }
            Err(refusal) => self.stop(Event::Hour, hour, refusal),
        }
    }

    // The month end or the year end, where it is due.
    pub(crate) fn close_if_due(&mut self, end: End, text: &mut [u8])
        requires { self.old.end + event_room owners ≤ length text.old }
        ensures { Appended (and_then (standing self.old) (if_due (end_call end))) self.old text.old self.new text.new }
    {
        if self.refusal != 0 {
            return;
        }
        let event = Event::from(end);
        if !self.book.is_due(event) {
            self.go_on();
            return;
        }
        let number = number_of(event, &self.book);
        let mut lines = [0i64; OWNERS];
        let outcome = self.book.pay_short(end, &mut lines);
        self.print_event(event, number, outcome, &lines, text);
    }

    // An accepted event's lines are appended; a refused event, which left the book as it was, stops the run.
    fn print_event(
        &mut self,
        event: Event,
        number: u64,
        outcome: Result<Funding, Refusal>,
        lines: &[i64],
        text: &mut [u8],
    )
        requires { (self.old.end + event_room owners ≤ length text.old) × (length lines.now ≡ owners) }
        ensures { Appended (answered_part event number outcome (read_off self.old.book) lines.now) self.old text.old self.new text.new }
    {
        match outcome {
            Ok(_) => {
                self.end = statement_text::write_event(
                    tag_of(event),
                    number,
                    lines,
                    text,
                    self.end,
                );
                self.go_on();
            }
            Err(refusal) => self.stop(event, number, refusal),
        }
    }

    // The run goes on, with no refusal.
    fn go_on(&mut self)
        ensures { self.new ≡ with_refusal (goes_on [] [] (read_off self.old.book)) self.old }
    {
        self.refusal = 0;
        self.tag = 0;
        self.number = 0;
        self.faulty = 0;
    }

    // The run stops at this event, of this number, with this refusal.
    fn stop(&mut self, event: Event, number: u64, refusal: Refusal)
        ensures { self.new ≡ with_refusal (refused_part event number (read_off self.old.book) refusal) self.old }
    {
        self.refusal = refusal.number();
        self.tag = tag_of(event);
        self.number = number;
        self.faulty = refusal.record();
    }
}

// An `H`, `M` or `Y`. By hand: `Run` holds the letter as a byte, for the C interface, and a `From` for a byte would stand with `Event`, which has
// no text.
fn tag_of(event: Event) -> u8
    ensures { result ≡ tag_of (call_at event) }
{
    match event {
        Event::Hour => b'H',
        Event::MonthEnd => b'M',
        Event::YearEnd => b'Y',
    }
}

// The hour or month number by the book before the event, 0 for the year.
fn number_of(event: Event, book: &Book) -> u64
    ensures { result ≡ number_of (call_at event) (read_off book.now) }
{
    match event {
        Event::Hour => book.hours,
        Event::MonthEnd => book.months,
        Event::YearEnd => 0,
    }
}
