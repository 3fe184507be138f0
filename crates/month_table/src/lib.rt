// The text of a month's table: what it is, and writing it.
#![tactic(auto)]

mod putting;
mod writing;

pub use putting::{FIGURES, Table, place_of, put_label, put_row, put_session};
pub use writing::{Written, write_table};
