// Whole good records of a journal, one behind the other: how far they go, how many they are, and what each row of the scope table reports of them.
#![tactic(auto)]

mod packed;
mod steps;
mod weights;

pub use packed::Packed;
pub use steps::{Stretch, stretch_of, stretch_on};
pub use weights::weights_for;
