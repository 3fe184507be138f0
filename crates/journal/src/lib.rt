// The journal: its records, the scope table, the reportable list, and the walk over a journal that was judged. The scan stands above it.
#![tactic(auto)]

mod counts;
mod judging;
mod marks;
mod operation;
mod property;
mod scope;
mod units;
mod walking;

pub use counts::Counts;
pub use judging::{Shape, judge, node_size};
pub use marks::{COUNT_LIMIT, LARGEST_WEIGHT, Mark, Marks, Place, count_of};
pub use operation::{Opcode, Operation};
pub use property::{NAME_LIMIT, PropertyRecord, VALUE_LIMIT, held_at, is_change, read_property};
pub use scope::{Selection, Units, scope_row, units_of};
pub use units::{asked_here, read_unit, same_unit, tally, wanted_unit};
pub use walking::{Visited, find, read_operand, visit};
