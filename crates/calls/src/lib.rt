// The definitions of a call through the argument buffer, of sessions, and the claims about them. Its code is types and their numbers.
#![tactic(auto)]

mod reading_record;
mod request;
mod status;

pub use reading_record::ReadingRecord;
pub use request::Request;
pub use status::{Number, Status, is_given};
