// The run of a registered dump: what each of its sections copies, and what the copied structure tells of it.
#![tactic(auto)]

mod running;
mod section;

pub use running::run_dump;
pub use section::{Section, actual_length, error_flags};
