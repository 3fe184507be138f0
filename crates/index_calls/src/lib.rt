// get-indices on partition memory, and the record of the reading in progress: the code that meets their definitions in `calls`.
#![tactic(auto)]

mod getting;
mod reading_record;

pub use getting::{Listed, get_indices, is_askable};
pub use reading_record::{no_reading, record_after};
