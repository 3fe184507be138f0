// Writing an index work area.
ghost use Rattle.std.specs.Prelude.{◌≡◌, ◌+◌, ◌-◌, ◌≤◌, length};
ghost use Rattle.std.proofs.lemmas.List.Edits.{sets};
ghost use Rattle.inventory.specs.Inventory.{code_limit};
ghost use Rattle.inventory.specs.Listing.{listed};
ghost use Rattle.inventory.specs.Inner.Located.{entry_in};
ghost use Rattle.inventory.specs.Claims.Scanning.{ahead, GoodFrom};
ghost use Rattle.indices.specs.Area.{filled, entry_size, entry_bytes, entries_bytes, fitting, run, area_after};
ghost use Rattle.indices.specs.Claims.Bounds.{EntriesBounded};
ghost use Rattle.indices.specs.Claims.Longest.{LongestRun};
ghost use Rattle.indices.specs.Claims.OtherCodes.{WriterAgrees};
ghost use Rattle.indices.specs.Claims.Writing.{DueEntries};

use inventory::{Located, StartingNumber, Wanted};

// The bytes of a code of c bytes with its NULs.
fn filled_size(c: usize) -> usize
    requires { c ≤ code_limit }
    ensures { result ≡ filled c }
{
    4 * (c / 4 + 1)
}

// The entry of a record that stands in the inventory; every other byte of the area stays.
fn store_entry(area: &mut [u8], to: usize, inventory: &[u8], entry: Located)
    requires { (entry.length ≤ code_limit) × (to + entry_size entry.length ≤ length area.old) ×
        (entry.start + entry.length ≤ length inventory.now) }
    ensures { area.new ≡ sets area.old to (entry_bytes (entry_in inventory.now entry)) }
{
    let code = &inventory[entry.start..entry.start + entry.length];
    let field = filled_size(entry.length);
    words::store_be32(area, to, entry.index);
    words::store_be32(area, to + 4, field as u32);
    words::store(area, to + 8, code);
    words::store_zeros(area, to + 8 + code.len(), field - code.len());
}

// The longest fitting run of the entries from a place on, from byte 4 on. Gives how many they are.
fn write_entries(
    area: &mut [u8],
    inventory: &[u8],
    wanted: Wanted,
    from: usize,
    count: usize,
) -> usize
    requires { (4 ≤ length area.old) × GoodFrom wanted.flag wanted.item_type inventory.now from × (count ≡ length (ahead wanted.flag wanted.item_type inventory.now from)) }
    ensures value { result ≡ length (fitting (length area.old - 4) (ahead wanted.flag wanted.item_type inventory.now from)) }
    ensures area_after { area.new ≡ sets area.old 4
        (entries_bytes (fitting (length area.old - 4) (ahead wanted.flag wanted.item_type inventory.now from))) }
{
    let mut at = from;
    let mut to = 4;
    for handed in 0..count {
        let found = inventory::next_entry(inventory, wanted, at);
        let entry = inventory::locate(inventory, found);
        let taken = 8 + filled_size(entry.length);
        if area.len() - to < taken {
            return handed;
        }
        store_entry(area, to, inventory, entry);
        at = found + entry.size;
        to += taken;
    }
    count
}

// The longest fitting run from a Starting Number on, with its count, or nothing where the entry due does not fit. Gives how many
// entries it has.
pub fn write_run(
    area: &mut [u8],
    inventory: &[u8],
    wanted: Wanted,
    number: StartingNumber,
    from: usize,
    count: usize,
) -> usize
    requires { (4 ≤ length area.old) × DueEntries wanted.flag wanted.item_type number.0 inventory.now from count }
    ensures value { result ≡ length (run (length area.old) number.0 (listed wanted.flag wanted.item_type inventory.now)) }
    ensures area_after { area.new ≡ area_after area.old
        (run (length area.old) number.0 (listed wanted.flag wanted.item_type inventory.now)) }
    ensures claims { LongestRun × WriterAgrees }
    ensures bounds { EntriesBounded }
{
    let handed = write_entries(area, inventory, wanted, from, count);
    if 0 < handed {
        words::store_be32(area, 0, handed as u32);
    }
    handed
}
