// The reading record and the edition over the C boundary.
ghost use Rattle.std.specs.Prelude.{◌≡◌};
ghost use Rattle.crossing.specs.Record.{flat_reading};
ghost use Rattle.draugsten.specs.Record.{flat_edit_of};
ghost use Rattle.draugsten.specs.Promises.{NoReadingPromise, EditPromise};

use crossing::FlatReading;
use inventory::Edition;

// What comes of an edit: whether it is taken (1 or 0), and the edition afterwards.
#[repr(C)]
#[derive(Clone, Copy)]
pub struct FlatEdit {
    pub taken: u32,
    pub edition: u32,
}

// The record of a partition without a reading in progress, which it starts with.
#[unsafe(no_mangle)]
pub extern "C" fn draugsten_no_reading() -> FlatReading
    ensures value { result ≡ flat_reading 0 0 1 0 }
    ensures promise { NoReadingPromise }
{
    crossing::flat_reading_of(index_calls::no_reading())
}

// An edit of an inventory of this edition. At the top it is not taken, and the edition stays.
#[unsafe(no_mangle)]
pub extern "C" fn draugsten_edit(edition: u32) -> FlatEdit
    ensures value { result ≡ flat_edit_of edition }
    ensures promise { EditPromise }
{
    match Edition(edition).edit() {
        Some(next) => FlatEdit {
            taken: 1,
            edition: next.0,
        },
        None => FlatEdit { taken: 0, edition },
    }
}
