// update-nodes on partition memory: the code that meets its definition in `calls`.
#![tactic(auto)]

mod nodes_call;

pub use nodes_call::{is_placed, update_nodes};
