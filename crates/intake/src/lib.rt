// A journal that arrives in bursts, which may break anywhere: complete records go to a tallied journal in a lent buffer.
#![tactic(auto)]

mod bursts;
mod judging;
mod states;
mod sweeping;
mod taking;

pub use bursts::{Ending, Intake, burst, end, start};
pub use states::is_ready;
pub use taking::Place;
