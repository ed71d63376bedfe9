// What several crates share: limits, the refusals, sums that cannot wrap, the two parts of a signed amount; and in specs/ and proofs/ the
// definitions and laws that they cite.

#![tactic(auto)]

mod refusal;
mod signs;
mod sums;

pub use refusal::Refusal;
pub use signs::{negative_part, positive_part};
pub use sums::{capped_total, plus_capped};

// The owners: lines, wants and cells have a place for each.
pub const OWNERS: usize = 64;

// The nodes that can have a price.
pub const NODES: usize = 1024;

// The most cents of wants, of shortfalls, of positive targets or of charges. Up to this sum, a smaller fund times a want fits 64 bits.
pub const MOST_CENTS: u64 = 4_000_000_000;
