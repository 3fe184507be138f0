// Reading a record of the inventory.
ghost use Rattle.std.specs.Prelude.{◌≡◌};
ghost use Rattle.inventory.specs.Inner.Judging.{Readable};
ghost use Rattle.inventory.specs.Inner.Located.{located_at};

use crate::judging::HEAD_SIZE;

// A record by its parts: the bytes that it takes, its index, and where its code stands in the inventory.
#[derive(Clone, Copy)]
pub struct Located {
    pub size: usize,
    pub index: u32,
    pub start: usize,
    pub length: usize,
}

// The record at a place.
pub fn locate(inventory: &[u8], at: usize) -> Located
    requires { Readable inventory.now at }
    ensures { result ≡ located_at inventory.now at }
{
    let size = records::record_size(records::read_frame(inventory, at));
    let index = words::read_le32(inventory, at + 10);
    let start = at + HEAD_SIZE;
    let length = size - HEAD_SIZE;
    Located {
        size,
        index,
        start,
        length,
    }
}
