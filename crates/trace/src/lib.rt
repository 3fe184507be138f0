// The definition of a trace's replay, and the claims about it. Its code is the report.
#![tactic(auto)]

mod report;

pub use report::Report;
