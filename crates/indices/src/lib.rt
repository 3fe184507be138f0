// The index work area: writing it, and reading it.
#![tactic(auto)]

mod reading;
mod writing;

pub use reading::{Cursor, Refusal, Set, check_area, fault_of};
pub use writing::write_run;
