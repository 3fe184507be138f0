// The kernel dump structure and its registration.
#![tactic(auto)]

mod registration;
mod structure;

pub use registration::{COPY_SIZE, Configured, Phase, Refusal, Registration, no_registration};
pub use structure::{
    FIRST_SECTION, SECTION_ACTUAL, SECTION_DESTINATION, SECTION_ERRORS, SECTION_REQUESTED,
    SECTION_SIZE, SECTION_SOURCE, SECTION_TYPE, SECTIONS, STATUS_FLAGS, is_structure,
};
