// The totals of a month: the figures of traces, added up, or refused whole.
#![tactic(auto)]

mod adding;
mod consistent;

pub use adding::{FIGURES, Totals, add, no_totals};
pub use consistent::is_consistent;
