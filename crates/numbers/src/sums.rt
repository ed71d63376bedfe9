// Sums of any amounts. The amounts could wrap a 64-bit sum, so that a capped one stops at its cap or is made in 128 bits.
ghost use Rattle.std.specs.Prelude.{◌+◌, min, ◌≡◌};
ghost use Rattle.numbers.specs.Lists.{total};

// A sum and one amount more, or the cap where that is less.
pub fn plus_capped(cap: u64, sum: u64, amount: u64) -> u64
    ensures { result ≡ min (sum + amount) cap }
{
    sum.saturating_add(amount).min(cap)
}

// A sum and all these amounts, or the cap where that is less. No slice has 2^64 amounts, so that their sum fits 128
// bits: the loop has no test, and the cap comes once, at its end.
pub fn capped_total(cap: u64, before: u64, amounts: &[u64]) -> u64
    ensures { result ≡ min (before + total amounts.now) cap }
{
    let mut sum = u128::from(before);
    for amount in amounts {
        sum += u128::from(*amount);
    }
    sum.min(u128::from(cap)) as u64
}
