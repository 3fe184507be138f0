// The scan: the inventory judged, its entries of a flag and type counted, and a place noted to search for the entry due, in one pass.
ghost use Rattle.inventory.specs.Claims.Inventory.{InventoryClaims};
ghost use Rattle.inventory.specs.Inner.Scanning.{ScanFinds};

use crate::judging::record_at;
use crate::numbering::StartingNumber;
use crate::wanted::Wanted;

// What a scan of a well-formed inventory finds: the number of entries, and a place from which on the list holds the entries from the
// one due on, which means nothing where there is no entry due.
#[derive(Clone, Copy)]
pub struct Counted {
    pub count: usize,
    pub due: usize,
}

// The inventory judged, and its entries of a flag and type counted; none where it is malformed. Entries are numbered from 1.
// Out of line, so that its loop has the registers to itself: within a call it counted in memory.
#[inline(never)]
pub fn scan(inventory: &[u8], wanted: Wanted, number: StartingNumber) -> Option<Counted>
    ensures scan_finds { ScanFinds wanted.flag wanted.item_type number.0 inventory.now result }
    ensures rules { InventoryClaims }
{
    if records::SIZE_LIMIT < inventory.len() {
        return None;
    }
    let mut at = 0;
    let mut count = 0;
    let mut due = 0;
    while at < inventory.len() {
        let size = record_at(inventory, at)?;
        // The next entry is the one due: from here on the list holds the entries from that one on.
        if number.is_next(count) {
            due = at;
        }
        count += usize::from(wanted.is_at(inventory, at));
        at += size;
    }
    Some(Counted { count, due })
}
