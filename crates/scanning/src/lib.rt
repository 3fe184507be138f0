// The scan of a journal: it is judged and its operations are counted in one pass, with marks noted on the way.
#![tactic(auto)]

mod counting;
mod noting;
mod stride;
mod weights;

pub use counting::{counts_of, scan, scan_noting};
pub use stride::{four_headers, header_at};
