// One hour's input, decoded from its bytes: the amount collected and the prices.

#![tactic(auto)]

ghost use Rattle.std.specs.Prelude.{◌≡◌, length};
ghost use Rattle.numbers.specs.Limits.{nodes};
ghost use Rattle.hour_block.specs.Block.{decoded, hour_bytes, prices_after, prices_in};

use numbers::{NODES, Refusal};

// The bytes of one hour: the amount, and a price for each node.
pub const HOUR_BYTES: usize = 4104;

// The decode call: any bytes, any number of lent prices.
#[tactic(auto, using(crate::proofs::Answer::answers))]
pub fn decode(block: &[u8], prices: &mut [i32]) -> Result<i64, Refusal>
    ensures value { result ≡ decoded block.now (length prices.old) }
    ensures prices_after { prices.new ≡ prices_after block.now prices.old }
{
    match block.first_chunk::<8>() {
        Some(amount) if block.len() == HOUR_BYTES && prices.len() == NODES => {
            write_prices(block, prices);
            Ok(i64::from_le_bytes(*amount))
        }
        _ => Err(Refusal::WrongLength),
    }
}

// Writes each node's price. The prices stand behind the eight bytes of the amount.
fn write_prices(block: &[u8], prices: &mut [i32])
    requires { (length block.now ≡ hour_bytes) × (length prices.old ≡ nodes) }
    ensures { prices.new ≡ prices_in block.now }
{
    let (words, _) = block[8..].as_chunks::<4>();
    // By index: tried with `prices.iter_mut().zip(words)`, of which no contract says what the prices end as, so the proof did not close.
    // By `prices.iter_mut().enumerate()` the words would be by index in their place: no plainer.
    for (node, word) in words.iter().enumerate() {
        prices[node] = i32::from_le_bytes(*word);
    }
}
