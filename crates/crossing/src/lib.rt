// What crosses the C boundary: the registration and the reading record as flat structs.
#![tactic(auto)]

mod reading_record;
mod registration;

pub use reading_record::{FlatReading, flat_reading_of, reading_of};
pub use registration::{FlatRegistration, flat_of, is_registration, registration_of};
