// Changes of a node's properties: which a call hands out, and writing them to a property work area.
#![tactic(auto)]

mod answering;
mod following;
mod walk;
mod writing;

pub use answering::answer;
pub use following::Refusal;
