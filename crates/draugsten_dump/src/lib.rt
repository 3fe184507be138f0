// The static library that runs a registered dump: one export, nothing else.
#![tactic(auto)]

mod running;
