// The scans and the search as a static library, for measuring alone: bench/ links it, and no product does.
#![tactic(auto)]

ghost use Rattle.std.specs.Prelude.{◌≡◌, length};
ghost use Rattle.inventory.specs.Listing.{listed};
ghost use Rattle.inventory.specs.Claims.Scanning.{GoodFrom};
ghost use Rattle.bench.specs.Inner.Bench.{reported_of, listed_of, last_index};

use inventory::{StartingNumber, Wanted};
use journal::Selection;

// How many operations a scope reports of a journal, in scope 3 of a unit; the highest number for a malformed journal.
#[unsafe(no_mangle)]
pub extern "C" fn draugsten_bench_scan(journal: &[u8], scope: u32, unit: u64) -> u64
    ensures { result ≡ reported_of scope unit journal.now }
{
    let selection = Selection {
        sets: journal::scope_row(scope).unwrap_or([0; 17]),
        units: journal::units_of(scope, unit),
    };
    let (counted, _) = scanning::scan(journal, &selection);
    match counted {
        None => u64::MAX,
        Some(c) => (c.deletes + c.updates + c.additions) as u64,
    }
}

// How many entries of a flag and type an inventory has, with the search for one of them; the highest number for a malformed inventory.
#[unsafe(no_mangle)]
pub extern "C" fn draugsten_bench_inventory(
    inventory: &[u8],
    flag: u32,
    item_type: u32,
    number: u32,
) -> u64
    ensures { result ≡ listed_of flag item_type inventory.now }
{
    let wanted = Wanted { flag, item_type };
    match inventory::scan(inventory, wanted, StartingNumber(number)) {
        None => u64::MAX,
        Some(counted) => counted.count as u64,
    }
}

// The search alone, from the first entry of a flag and type to the last of so many, over an inventory that was judged before: the
// index of the last.
#[unsafe(no_mangle)]
pub extern "C" fn draugsten_bench_search(
    inventory: &[u8],
    flag: u32,
    item_type: u32,
    count: u64,
) -> u32
    requires { GoodFrom flag item_type inventory.now 0 × (count ≡ length (listed flag item_type inventory.now)) }
    ensures { result ≡ last_index 0 (listed flag item_type inventory.now) }
{
    let wanted = Wanted { flag, item_type };
    let mut at = 0;
    let mut last = 0;
    for passed in 0..count {
        let found = inventory::next_entry(inventory, wanted, at);
        let entry = inventory::locate(inventory, found);
        last = entry.index;
        at = found + entry.size;
    }
    last
}
