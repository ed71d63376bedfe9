// From 64 targets to wants and charges, and from payments to lines. That payments are small is asked by three functions: tried as a ghost
// field of `Paid`, a record of specs then holds the proof too, so `paid_from` would need it for every refused hour as well.
ghost use Rattle.std.specs.Prelude.{ℕ, ◌+◌, ◌≤◌, min, ◌≡◌, get_or};
ghost use Rattle.numbers.specs.Limits.{most_cents};
ghost use Rattle.settlement.specs.Events.{hour_charges, hour_line, hour_lines, hour_wants, payment_lines};

use numbers::OWNERS;
use std::array;

// The positive targets.
pub(crate) fn wants_of(targets: &[i64; OWNERS]) -> [u64; OWNERS]
    ensures { result ≡ hour_wants targets.now }
{
    array::from_fn(|owner| numbers::positive_part(targets[owner]))
}

// All charges, or one cent above the limit once that is passed. A fold of its own beside `capped_total`: that is lent amounts, and the charges
// are made one by one; a list of them first, or a function that takes an iterator, would be no plainer.
pub(crate) fn charges_of(targets: &[i64; OWNERS]) -> u64
    ensures { result ≡ min (hour_charges targets.now) (most_cents + 1) }
{
    let cap = numbers::MOST_CENTS + 1;
    targets.iter().fold(
        0,
        |sum, target| numbers::plus_capped(cap, sum, numbers::negative_part(*target)),
    )
}

// An hour's lines: each owner's payment, or its target if that is negative.
pub(crate) fn of_hour(targets: &[i64; OWNERS], payments: &[u64; OWNERS]) -> [i64; OWNERS]
    requires { (i : ℕ) → get_or payments.now i 0 ≤ most_cents }
    ensures { result ≡ hour_lines targets.now payments.now }
{
    array::from_fn(|owner| line_of(targets[owner], payments[owner]))
}

fn line_of(target: i64, payment: u64) -> i64
    requires { payment ≤ most_cents }
    ensures { result ≡ hour_line target payment }
{
    if target < 0 {
        return target;
    }
    payment.cast_signed()
}

// The payments as lines.
pub(crate) fn of_payments(payments: &[u64; OWNERS]) -> [i64; OWNERS]
    requires { (i : ℕ) → get_or payments.now i 0 ≤ most_cents }
    ensures { result ≡ payment_lines payments.now }
{
    array::from_fn(|owner| payments[owner].cast_signed())
}
