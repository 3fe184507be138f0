// All entries of an area, into a buffer that the caller lends.
#![tactic(auto)]

mod reading_indices;
mod reading_nodes;
mod reading_properties;
mod storing;

pub use reading_indices::{IndexReading, code_length, read_indices};
pub use reading_nodes::{NodeReading, read_nodes};
pub use reading_properties::{PropertyReading, read_properties};
