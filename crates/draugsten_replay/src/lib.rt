// The static library of the replay, the month and the month's table. Every function takes any buffers.
#![tactic(auto)]

mod feeding;
mod month;
mod table;
