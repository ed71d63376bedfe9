// Targets: what an hour's prices are worth to each owner, in whole cents; and the row of each right.

#![tactic(auto)]

ghost use Rattle.std.specs.Prelude.{◌≡◌, length};
ghost use Rattle.numbers.specs.Refusals.{answered, first_refusal};
ghost use Rattle.calendar.specs.Year.{operating_hour};
ghost use Rattle.target.specs.Rounding.{round_tenths};
ghost use Rattle.target.specs.Target.{any_wild, call_answer, early_rows, is_wild, is_wrong_price_count, target_lines, target_refusal};

use calendar::OperatingHour;
use numbers::{OWNERS, Refusal};
use priced_right::PricedRight;

mod live_rights;
mod priced_right;
mod right_rows;

pub use right_rows::rows;

// The largest price on either side of zero, in cents per megawatt hour.
const MOST_PRICE: i32 = 500000;

// Tenths of a cent to cents, halves away from zero, for every number: the remainder's own fifths are 1, 0 or -1.
pub fn round_tenths(tenths: i64) -> i64
    ensures { result ≡ round_tenths tenths }
{
    tenths / 10 + tenths % 10 / 5
}

// The target call: all 64 targets of an hour, or a refusal that leaves the lines as they were.
pub fn targets(
    year: u64,
    rights: &[u8],
    prices: &[i32],
    hour: u64,
    lines: &mut [i64],
) -> Result<(), Refusal>
    ensures value { result ≡ call_answer year rights.now prices.now (target_refusal year rights.now prices.now hour (length lines.old)) }
    ensures lines_after { lines.new ≡ target_lines year rights.now prices.now hour lines.old }
{
    let hour = looked_at(year, rights, prices, hour, lines.len() != OWNERS)?;
    let Some(sums) = live_rights::add_rights(year, rights, prices, hour) else {
        return rights::file_fault(year, rights, prices.len());
    };
    lines.copy_from_slice(&sums);
    Ok(())
}

// The hour, or what the year, the hour, the lengths and the prices call for: 15, 3, 4 or 5. `wrong` is whether the lines are not as many as the
// call writes, the one test that the two calls differ in. Year, rights, prices and hour are what the calls are given: a struct made for each call
// is no plainer.
fn looked_at(
    year: u64,
    rights: &[u8],
    prices: &[i32],
    hour: u64,
    wrong: bool,
) -> Result<OperatingHour, Refusal>
    ensures { result ≡ answered (first_refusal (early_rows year rights.now prices.now hour wrong)) 0 (operating_hour year hour) }
{
    let hour = calendar::operating_hour(year, hour)?;
    if wrong | wrong_price_count(prices.len()) | rights::wrong_length(rights.len()) {
        return Err(Refusal::WrongLength);
    }
    if any_wild(prices) {
        return Err(Refusal::WildPrice);
    }
    Ok(hour)
}

fn wrong_price_count(prices: usize) -> bool
    ensures { result ≡ is_wrong_price_count prices }
{
    (prices == 0) | (numbers::NODES < prices)
}

// Whether some price is outside its range. No early way out, so that the loop goes over several prices at a time.
fn any_wild(prices: &[i32]) -> bool
    ensures { result ≡ any_wild prices.now }
{
    prices
        .iter()
        .fold(false, |wild, price| wild | is_wild(*price))
}

fn is_wild(price: i32) -> bool
    ensures { result ≡ is_wild price }
{
    (price < -MOST_PRICE) | (MOST_PRICE < price)
}
