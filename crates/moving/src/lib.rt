// Bytes moved within one buffer: the destination gets what the source held before, also where they overlap.
#![tactic(auto)]

mod moving;

pub use moving::move_bytes;
