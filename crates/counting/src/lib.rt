// What a call counts for the month: its token and status, and of an answered update-nodes call the operations and words of its area.
#![tactic(auto)]

mod area;
mod counts;
mod figures;

pub use counts::{Counts, ROWS, count_call, no_counts};
pub use figures::figures_of;
