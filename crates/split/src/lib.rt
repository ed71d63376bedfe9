// The proportional split of a fund, in whole cents.

#![tactic(auto)]

ghost use Rattle.std.specs.Prelude.{ℕ, ◌<◌, ◌≤◌, ◌≡◌, ltb, length, get_or};
ghost use Rattle.numbers.specs.Limits.{owners, most_cents};
ghost use Rattle.numbers.specs.Lists.{count_below, list_below, total};
ghost use Rattle.numbers.specs.Refusals.{answered};
ghost use Rattle.split.specs.InnerContracts.{with_odd_cent, Short, WholePaid};
ghost use Rattle.split.specs.Split.{payment, allocation, has_wrong_limits, payments_after, split_refusal};

use numbers::{OWNERS, Refusal};

// A caller's limits: for how many owners it may give wants, at most, and how many cents these may come to. A call takes 1 to 64 owners
// and a total of 1 to 4,000,000,000, and refuses other limits.
#[derive(Clone, Copy, Debug, PartialEq, Eq)]
pub struct Limits {
    pub owners: usize,
    pub total: u64,
}

impl Limits {
    // Whether a call refuses them.
    fn are_wrong(self) -> bool
        ensures { result ≡ has_wrong_limits self }
    {
        self.owners < 1
            || self.owners > OWNERS
            || self.total < 1
            || self.total > numbers::MOST_CENTS
    }
}

// Pays the whole part of each share and keeps its remainder. Gives the cents still unpaid.
// Fund, sum, wants and payments go all four together through two functions alone; fund, wants and payments go through four, two of them
// public, so that a struct of them would be no plainer.
#[tactic(auto, using(crate::proofs::Shares::whole_parts))]
fn pay_whole_parts(
    fund: u64,
    sum: u64,
    wants: &[u64],
    payments: &mut [u64],
    remainders: &mut [u32],
) -> u64
    requires short { Short fund sum wants.now payments.old }
    requires a_remainder_each { length remainders.old ≡ length wants.now }
    ensures { WholePaid fund wants.now payments.new remainders.new result }
{
    let mut unpaid = fund;
    // By index, since it writes two slices: three iterators in a row are no plainer.
    for (i, want) in wants.iter().enumerate() {
        let share = fund * *want;
        let whole = share / sum;
        payments[i] = whole;
        remainders[i] = (share % sum) as u32;
        unpaid -= whole;
    }
    unpaid
}

// How many of the remainders are larger than this one.
#[tactic(auto, using(crate::proofs::Order::counting_ahead))]
fn larger(remainders: &[u32], remainder: u32) -> u32
    requires few { length remainders.now ≤ owners }
    ensures { result ≡ count_below (λ k. ltb remainder (get_or remainders.now k 0)) (length remainders.now) }
{
    let mut larger = 0;
    for other in remainders {
        larger += u32::from(remainder < *other);
    }
    larger
}

// Adds an odd cent to the payment of each owner who has fewer ahead than cents are unpaid. The remainder of an owner that had its turn is raised
// by one, so that of two equal ones the lower number's is the larger, and numbers need not be compared.
fn pay_odd_cents(remainders: &mut [u32], unpaid: u64, payments: &mut [u64])
    requires few { length remainders.old ≤ owners }
    requires a_remainder_each { length payments.old ≡ length remainders.old }
    requires small { (k : ℕ) → k < length payments.old → get_or payments.old k 0 ≤ most_cents }
    requires raisable { (k : ℕ) → k < length remainders.old → get_or remainders.old k 0 < most_cents }
    ensures { (k : ℕ) → k < length payments.old → get_or payments.new k 0 ≡ with_odd_cent remainders.old unpaid payments.old k }
{
    for (i, payment) in payments.iter_mut().enumerate() {
        let remainder = remainders[i];
        *payment += u64::from(u64::from(larger(remainders, remainder)) < unpaid);
        remainders[i] = remainder + 1;
    }
}

// Pays the shares of a fund that is below the sum of the wants.
#[tactic(auto, using(crate::proofs::Shares::whole_within_most))]
fn pay_shares(fund: u64, sum: u64, wants: &[u64], payments: &mut [u64])
    requires { Short fund sum wants.now payments.old }
    ensures { payments.new ≡ list_below (payment fund wants.now) (length wants.now) }
{
    // A fixed buffer cut to the length of the wants, since there is no heap.
    let mut places = [0u32; OWNERS];
    let remainders = &mut places[..wants.len()];
    let unpaid = pay_whole_parts(fund, sum, wants, payments, remainders);
    if unpaid > 0 {
        pay_odd_cents(remainders, unpaid, payments);
    }
}

// The sum of the wants of a call with so many payments lent, unless it is refused. At most 64 wants are summed, and before 16 is looked at, so
// that the rows stand one under another.
#[tactic(auto, using(crate::proofs::Answers::answers))]
fn demand(limits: Limits, wants: &[u64], places: usize) -> Result<u64, Refusal>
    ensures { result ≡ answered (split_refusal limits wants.now places) 0 (total wants.now) }
{
    if wants.len() != places || wants.len() > OWNERS || limits.are_wrong() {
        return Err(Refusal::WrongLength);
    }
    let sum = numbers::capped_total(numbers::MOST_CENTS + 1, 0, wants);
    if wants.len() > limits.owners {
        return Err(Refusal::TooManyWants);
    }
    if sum > numbers::MOST_CENTS {
        return Err(Refusal::WantTooLarge);
    }
    if sum > limits.total {
        return Err(Refusal::TotalTooLarge);
    }
    Ok(sum)
}

// Splits the fund over the wants into as many payments, within the caller's limits: each its want if the fund has enough, else its share
// of the fund, whole cents first and odd cents to the largest remainders. Gives what is left. A refusal leaves the payments as they were.
#[tactic(auto, using(crate::proofs::Answers::answers), unfolding(crate::specs::Split::payments))]
pub fn split(limits: Limits, fund: u64, wants: &[u64], payments: &mut [u64]) -> Result<u64, Refusal>
    ensures value { result ≡ allocation limits fund wants.now (length payments.old) }
    ensures payments_after { payments.new ≡ payments_after limits fund wants.now payments.old }
{
    let sum = demand(limits, wants, payments.len())?;
    if fund >= sum {
        payments.copy_from_slice(wants);
        return Ok(fund - sum);
    }
    pay_shares(fund, sum, wants, payments);
    Ok(0)
}
