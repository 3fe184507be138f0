// The node work area: its size and head, the State Variable, and reading an area.
#![tactic(auto)]

mod head;
mod reading;
mod state;

pub use head::{AREA_SIZE, HEAD_SIZE, is_reserved, read_unit, reserved_from, write_head};
pub use reading::{Cursor, Refusal, check_area};
pub use state::StateVariable;
