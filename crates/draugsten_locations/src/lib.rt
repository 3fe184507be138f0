// The static library of lookups of location codes and of views of index work areas: the exports, nothing else.
#![tactic(auto)]

mod looking;
mod viewing;
