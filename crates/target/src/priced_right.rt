// A right beside the prices of an hour: its row, and what its owner's sum comes to with it.
ghost use Rattle.std.specs.Prelude.{◌≡◌, false, true, ◌+◌, ◌*◌, ◌^◌, ◌≤◌, ◌<◌, get_or, length, set, nat_abs, pos, ◌+ℤ◌};
ghost use Rattle.rights.specs.Layout.{good_owner, good_size, most_size};
ghost use Rattle.rights.specs.Faults.{is_unpriced};
ghost use Rattle.target.specs.Rounding.{round_tenths};
ghost use Rattle.target.specs.Target.{any_wild, counted, live_cents, most_price, row_cents, tenths};

use calendar::OperatingHour;
use numbers::OWNERS;
use rights::{Kind, Right};

// A tenth of 2^64, rounded up.
const TENTH: i128 = (1 << 64) / 10 + 1;

// The lower 64 bits.
const LOWER_HALF: i128 = (1 << 64) - 1;

// A right with a good owner, kind and size, whose two nodes are among the prices, none of which is wild. Its days are looked at before, by the
// year.
#[derive(Clone, Copy)]
pub(crate) struct PricedRight<'a> {
    pub(crate) right: Right,
    pub(crate) prices: &'a [i32],
    ghost owned: { good_owner right ≡ true },
    ghost kinded: { right.kind ≤ 1 },
    ghost sized: { good_size right ≡ true },
    ghost priced: { is_unpriced (length prices.now) right ≡ false },
    ghost tame: { any_wild prices.now ≡ false },
}

impl<'a> PricedRight<'a> {
    // Adds a live right's cents to its owner's sum.
    pub(crate) fn add_to(&self, sums: &mut [i64; OWNERS])
        requires { nat_abs (get_or sums.old self.now.right.owner (pos 0)) + nat_abs (live_cents self.now.prices.now self.now.right) < 2 ^ 63 }
        ensures { sums.new ≡ set sums.old self.now.right.owner (get_or sums.old self.now.right.owner (pos 0) +ℤ live_cents self.now.prices.now self.now.right) }
    {
        sums[usize::from(self.right.owner)] += self.live_cents();
    }

    // The right's cents in an hour, 0 where it is not live.
    #[tactic(auto, using(crate::proofs::Cents::row_live, crate::proofs::Cents::row_not_live))]
    pub(crate) fn row_cents(&self, hour: OperatingHour) -> i64
        ensures { result ≡ row_cents self.now.prices.now hour self.now.right }
    {
        if rights::is_live(self.right, hour) {
            self.live_cents()
        } else {
            0
        }
    }

    // A live right's cents.
    #[tactic(auto, using(crate::proofs::Cents::tenths_most), unfolding(crate::specs::Target::live_cents))]
    fn live_cents(&self) -> i64
        ensures { result ≡ live_cents self.now.prices.now self.now.right }
    {
        nearest_cent(self.tenths())
    }

    // Size times spread: tenths of a cent.
    fn tenths(&self) -> i64
        ensures { result ≡ tenths self.now.prices.now self.now.right }
    {
        let sink = self.prices[usize::from(self.right.sink)];
        let source = self.prices[usize::from(self.right.source)];
        let gain = self.counted(i64::from(sink) - i64::from(source));
        i64::from(self.right.size) * gain
    }

    // The spread, but 0 for an option's negative one. A kind is 0 or 1, so that its last bit tells an option: that is one instruction, where the
    // whole byte would be cut out first.
    fn counted(&self, gain: i64) -> i64
        ensures { result ≡ counted self.now.right.kind gain }
    {
        if self.right.kind % 2 == Kind::Option as u8 {
            gain.max(0)
        } else {
            gain
        }
    }
}

// `round_tenths` for the tenths of one right: the product with a tenth of 2^64, to the nearest multiple of 2^64. That is its upper half, and one
// more where the lower half is 2^63 at least. The tenth is rounded up, so that the product lies a little too far from zero: that decides the halves,
// and with so few tenths nothing else. One product and no test: a spread's sign cannot be foreseen. By `as`: the two halves, of which the lower is
// cut out first, since a cast may lose nothing.
fn nearest_cent(tenths: i64) -> i64
    requires { nat_abs tenths ≤ most_size * (most_price + most_price) }
    ensures { result ≡ round_tenths tenths }
{
    let product = i128::from(tenths) * TENTH;
    (product >> 64) as i64 + ((product & LOWER_HALF) as u64 >> 63) as i64
}
