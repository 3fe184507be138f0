// The reading record over the C boundary.
ghost use Rattle.std.specs.Prelude.{◌≡◌};
ghost use Rattle.crossing.specs.Record.{flat_reading_of, reading_of};
ghost use Rattle.crossing.specs.Claims.Record.{ReadingFaithful};

use calls::ReadingRecord;
use inventory::{Edition, StartingNumber};

// A reading record: flag, type, the number of the entry due, and the edition. Every value is one.
#[repr(C)]
#[derive(Clone, Copy)]
pub struct FlatReading {
    pub flag: u32,
    pub item_type: u32,
    pub number: u32,
    pub edition: u32,
}

pub fn reading_of(flat: FlatReading) -> ReadingRecord
    ensures value { result ≡ reading_of flat }
    ensures faithful { ReadingFaithful }
{
    ReadingRecord {
        flag: flat.flag,
        item_type: flat.item_type,
        number: StartingNumber(flat.number),
        edition: Edition(flat.edition),
    }
}

pub fn flat_reading_of(reading: ReadingRecord) -> FlatReading
    ensures { result ≡ flat_reading_of reading }
{
    FlatReading {
        flag: reading.flag,
        item_type: reading.item_type,
        number: reading.number.0,
        edition: reading.edition.0,
    }
}
