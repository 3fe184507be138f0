// The inventory: its records, and the entries of a flag and type.
#![tactic(auto)]

mod edition;
mod judging;
mod locating;
mod numbering;
mod scanning;
mod searching;
mod wanted;

pub use edition::Edition;
pub use judging::CODE_LIMIT;
pub use locating::{Located, locate};
pub use numbering::StartingNumber;
pub use scanning::{Counted, scan};
pub use searching::next_entry;
pub use wanted::Wanted;
