// One place to ask for a location code: an index work area, and the fixed list of codes. And a view that goes through an area entry by entry.
#![tactic(auto)]

mod fixed;
mod listed;
mod lookups;
mod views;

pub use listed::Part;
pub use lookups::{Answer, Location, check, locate, lookup};
pub use views::{Advance, Given, Stepped, View, advance_at, step, view_of};
