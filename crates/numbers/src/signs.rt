// A signed amount as two unsigned ones, of which one is 0.
ghost use Rattle.std.specs.Prelude.{◌≡◌};
ghost use Rattle.numbers.specs.Signs.{positive, negative};

// The amount, or 0 if it is negative.
pub fn positive_part(amount: i64) -> u64
    ensures { result ≡ positive amount }
{
    amount.max(0).unsigned_abs()
}

// A negative amount with its sign dropped, else 0. The least number has no opposite among the signed ones.
pub fn negative_part(amount: i64) -> u64
    ensures { result ≡ negative amount }
{
    amount.min(0).unsigned_abs()
}
