// What a call hands out of a reportable list: the longest run that fits, and writing it to a node work area.
#![tactic(auto)]

mod run;
mod writing;

pub use run::longest_run;
pub use writing::{Progress, write_answer};
