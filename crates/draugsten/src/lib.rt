// The static library: what C and Rust programs link. Every function takes any buffers.
#![tactic(auto)]

mod calling;
mod reading;
mod reading_record;
