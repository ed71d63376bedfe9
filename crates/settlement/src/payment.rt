// What a fund pays out to all owners.
ghost use Rattle.std.specs.Prelude.{◌≤◌, ◌≡◌, false, replicate, pos, ◌+ℤ◌, ◌-ℤ◌, ◌≤ℤ◌};
ghost use Rattle.numbers.specs.Limits.{owners, most_cents};
ghost use Rattle.numbers.specs.Lists.{total};
ghost use Rattle.numbers.specs.Refusals.{answered, first_refusal};
ghost use Rattle.settlement.specs.Events.{hour_charges, hour_fund, hour_wants, is_wild_amount, payout};
ghost use Rattle.settlement.specs.InnerContracts.{carry_rows, paid_from};

use crate::{Funding, cells, lines};
use numbers::{OWNERS, Refusal};
use split::Limits;

// The hall's own limits for a split: all owners, and the most cents that wants come to.
const HALL: Limits = Limits {
    owners: OWNERS,
    total: numbers::MOST_CENTS,
};

// What a fund pays each owner, what it leaves unpaid, and what is left of it, which is negative where the fund is.
#[derive(Clone, Copy)]
pub(crate) struct Paid {
    pub(crate) funding: Funding,
    pub(crate) left: i64,
    pub(crate) payments: [u64; OWNERS],
    pub(crate) unpaid: [u64; OWNERS],
}

// Pays an hour's positive targets from its fund, where all shortfalls before it come to the carry. Refuses an hour that is too large, or that
// would leave too much unpaid.
pub(crate) fn share_out(
    carry: u64,
    collected: i64,
    targets: &[i64; OWNERS],
) -> Result<Paid, Refusal>
    requires { (carry ≤ most_cents) × (is_wild_amount collected ≡ false) }
    ensures { result ≡ answered (first_refusal (carry_rows carry (hour_fund collected targets.now) (hour_wants targets.now) (hour_charges targets.now))) 0 (paid_from (hour_fund collected targets.now) (hour_wants targets.now)) }
{
    let cap = numbers::MOST_CENTS + 1;
    let wants = lines::wants_of(targets);
    if numbers::capped_total(cap, 0, &wants) == cap {
        return Err(Refusal::HourTooLarge);
    }
    let charges = lines::charges_of(targets);
    if charges == cap {
        return Err(Refusal::HourTooLarge);
    }
    let paid = pay(collected + charges.cast_signed(), &wants);
    if carry + unpaid_in_all(paid.funding, paid.left) > numbers::MOST_CENTS {
        return Err(Refusal::CarryFull);
    }
    Ok(paid)
}

// What is unpaid of all wants: all but what of the fund is not left.
fn unpaid_in_all(funding: Funding, left: i64) -> u64
    requires { (pos 0 ≤ℤ (funding.fund -ℤ left)) × ((funding.fund -ℤ left) ≤ℤ pos funding.demand) × (funding.demand ≤ most_cents) }
    ensures { pos result +ℤ (funding.fund -ℤ left) ≡ pos funding.demand }
{
    funding.demand - (funding.fund - left).cast_unsigned()
}

// Pays 64 wants that the hall's limits take.
pub(crate) fn pay(fund: i64, wants: &[u64; OWNERS]) -> Paid
    requires { total wants.now ≤ most_cents }
    ensures { result ≡ paid_from fund wants.now }
{
    let demand = numbers::capped_total(numbers::MOST_CENTS, 0, wants);
    let mut payments = [0u64; OWNERS];
    let left = pay_out(fund, wants, &mut payments);
    let unpaid = cells::unpaid_of(wants, &payments);
    Paid {
        funding: Funding { fund, demand },
        left,
        payments,
        unpaid,
    }
}

// Writes what a fund pays: the split's payments where it is at least 0, none where it is negative. Gives what is left of it.
fn pay_out(fund: i64, wants: &[u64; OWNERS], payments: &mut [u64; OWNERS]) -> i64
    requires within { total wants.now ≤ most_cents }
    requires none_yet { payments.old ≡ replicate owners 0 }
    ensures value { result ≡ (payout fund wants.now).left }
    ensures payments_after { payments.new ≡ (payout fund wants.now).payments }
{
    if fund < 0 {
        return fund;
    }
    split::split(HALL, fund.unsigned_abs(), wants, payments)
        .unwrap()
        .cast_signed()
}
