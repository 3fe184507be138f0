// What a record does to a replay: a 32 waits, a 33 has its call made and compared, a 34 sets memory.
#![tactic(auto)]

mod comparing;
mod playing;

pub use playing::{Playing, is_going, is_good_frame, play};
