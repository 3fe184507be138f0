// The replay as a flat struct for the C boundary, and which states are taken there.
#![tactic(auto)]

mod coming;
mod counts;
mod state;

pub use coming::{is_state, judge};
pub use counts::are_counts;
pub use state::{FlatReplay, FlatReport, flat_replay_of, flat_report_of, replay_alone, replay_of};
