// The property work area: its head, and reading an area.
#![tactic(auto)]

mod head;
mod reading;

pub use head::{FIRST_AT, is_reserved, read_phandle, read_state, write_head};
pub use reading::{Cursor, DELETION, Located, Refusal, check_area, locate};
