// What a call's own work gives.
use calls::{ReadingRecord, Status};
use dump::Registration;

// Its status, and the registration and the reading record afterwards.
#[derive(Clone, Copy)]
pub struct Work {
    pub status: Status,
    pub registration: Registration,
    pub reading: ReadingRecord,
}
