// Tallies kept beside a journal: how many operations of each opcode every scope's row holds.
#![tactic(auto)]

mod counting;
mod keeping;
mod tallies;

pub use counting::recount;
pub use keeping::{Kept, Refusal, Tallied, append, cleared, extended, is_fit, join};
pub use tallies::Tallies;
