// The events on a book in place. A refused one leaves the book and the lines as they were.
ghost use Rattle.std.specs.Prelude.{◌<◌, ◌≡◌, false, length};
ghost use Rattle.numbers.specs.Refusals.{answered, first_refusal};
ghost use Rattle.calendar.specs.Almanac.{is_outside};
ghost use Rattle.calendar.specs.Year.{hours_in_year};
ghost use Rattle.rights.specs.Faults.{faulty_record};
ghost use Rattle.target.specs.Target.{targets};
ghost use Rattle.settlement.specs.ByOwner.{AnsweredByOwner};
ghost use Rattle.settlement.specs.Events.{hour_call, input_rows, is_wild_amount};
ghost use Rattle.settlement.specs.InnerContracts.{is_before_amount};
ghost use Rattle.settlement.specs.Ends.{end_call};

use crate::{
    Book, End, Event, Funding, LEAST_COLLECTED, MOST_COLLECTED, cells, lines, payment, refusals,
};
use numbers::{OWNERS, Refusal};

impl Book {
    // The next hour, as `hour`, on the book in place. Its parameters are those of `hour`: a struct would be made and taken apart once.
    pub fn settle_hour(
        &mut self,
        rights: &[u8],
        prices: &[i32],
        collected: i64,
        lines: &mut [i64],
    ) -> Result<Funding, Refusal>
        ensures { AnsweredByOwner (hour_call rights.now prices.now collected) self.old lines.old result self.new lines.new }
    {
        let carry = refusals::of_event(self, Event::Hour, lines.len())?;
        let targets = hour_targets(self.year, rights, prices, self.hours, collected)?;
        let paid = payment::share_out(carry, collected, &targets)?;
        lines.copy_from_slice(&lines::of_hour(&targets, &paid.payments));
        self.after_hour(&paid.unpaid, paid.left);
        Ok(paid.funding)
    }

    // The month end or the year end, as `close`, on the book in place: pays the shortfalls of a month or of the year from its balance.
    pub fn pay_short(&mut self, end: End, lines: &mut [i64]) -> Result<Funding, Refusal>
        ensures { AnsweredByOwner (end_call end) self.old lines.old result self.new lines.new }
    {
        refusals::of_event(self, end.into(), lines.len())?;
        // Two matches on the end: a month and a year have other cells to pay from and to write, so that closures would be no plainer.
        let (fund, wants) = match end {
            End::Month => (self.monthbalance, cells::cells_from(&self.shortfalls, 0)),
            End::Year => (self.yearbalance, cells::cells_from(&self.shortfalls, 1)),
        };
        let paid = payment::pay(fund, &wants);
        lines.copy_from_slice(&lines::of_payments(&paid.payments));
        match end {
            End::Month => self.after_month(&paid.unpaid, paid.left),
            End::Year => self.after_year(&paid.unpaid, paid.left),
        }
        Ok(paid.funding)
    }
}

// The targets of an hour, or the refusal that its rights, prices and amount call for. It is given what the event is given, once.
fn hour_targets(
    year: u64,
    rights: &[u8],
    prices: &[i32],
    hour: u64,
    collected: i64,
) -> Result<[i64; OWNERS], Refusal>
    requires { (is_outside year ≡ false) × (hour < hours_in_year year) }
    ensures { result ≡ answered (first_refusal (input_rows year rights.now prices.now collected)) (faulty_record year (length prices.now) rights.now (first_refusal (input_rows year rights.now prices.now collected))) (targets year rights.now prices.now hour) }
{
    let mut targets = [0i64; OWNERS];
    let outcome = target::targets(year, rights, prices, hour, &mut targets);
    if is_wild_amount(collected) & !is_before_amount(outcome) {
        return Err(Refusal::WildAmount);
    }
    outcome?;
    Ok(targets)
}

// Whether a target call is refused by what comes before a wild amount in the table.
fn is_before_amount(outcome: Result<(), Refusal>) -> bool
    ensures { result ≡ is_before_amount outcome }
{
    outcome.is_err_and(|refusal| refusal < Refusal::WildAmount)
}

fn is_wild_amount(collected: i64) -> bool
    ensures { result ≡ is_wild_amount collected }
{
    (collected < LEAST_COLLECTED) | (MOST_COLLECTED < collected)
}
