// Reading the text of a month's table.
#![tactic(auto)]

mod finding;
mod judging;
mod reading;

pub use reading::{Read, read_table};
