// The record of a partition's reading in progress.
use inventory::{Edition, StartingNumber};

// The flag and type that are read, the number of the entry due, and the edition over which the reading began. Every value is a record.
#[derive(Clone, Copy)]
pub struct ReadingRecord {
    pub flag: u32,
    pub item_type: u32,
    pub number: StartingNumber,
    pub edition: Edition,
}
