// The replay of a recorded session: a trace is fed in bursts that break anywhere, its calls are made again, and the first that went astray is told.
#![tactic(auto)]

mod feeding;
mod filling;

pub use feeding::{Replay, end, feed, start};
pub use filling::ripe_at;
