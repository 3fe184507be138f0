// The share of one whole number in another, in lowest terms.
#![tactic(auto)]

mod share;

pub use share::{Share, share_of};
