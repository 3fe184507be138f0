// Writing the pieces of what is due behind the head of an area.
ghost use Rattle.std.specs.Prelude.{◌≡◌, true, ◌+◌, ◌-◌, ◌<◌, ◌≤◌, length, drop};
ghost use Rattle.std.proofs.lemmas.List.Edits.{sets};
ghost use Rattle.records.specs.Records.{records};
ghost use Rattle.journal.specs.Holding.{HoldsProperty};
ghost use Rattle.node_area.specs.Head.{area_size};
ghost use Rattle.properties.specs.Inner.Following.{Resumes, Within};
ghost use Rattle.properties.specs.Inner.Writing.{GoodFrom, next_change, change_at, portion_at, stored_bytes, last_descriptor, Unfit, last_bytes};
ghost use Rattle.properties.specs.Inner.Writing.{last_handed, HandsOut};

use node_area::AREA_SIZE;
use property_area::{DELETION, FIRST_AT};

// The place of the next record of a node's change, from a place on where good records stand, or their end. Of another record only
// length, kind and phandle are read.
fn next_change(j: &[u8], phandle: u32, from: usize) -> usize
    requires { GoodFrom j.now from }
    ensures { result ≡ next_change phandle from (records (drop from j.now)) }
{
    let mut at = from;
    while at < j.len() {
        if journal::is_change(j, at, phandle) {
            break;
        }
        at += records::record_size(records::read_frame(j, at));
    }
    at
}

// What is due of a change: the offset due, where its name and the value bytes due stand, and where its record ends.
#[derive(Clone, Copy)]
pub struct Portion {
    pub at: usize,
    pub name: usize,
    pub name_length: usize,
    pub deleted: bool,
    pub value: usize,
    pub length: usize,
    pub end: usize,
}

// What is due at a state of the change whose record stands at a place.
fn portion_at(j: &[u8], at: usize, state: usize) -> Portion
    requires { HoldsProperty j.now at × Within state (change_at j.now at) }
    ensures { result ≡ portion_at j.now at state }
{
    let p = journal::read_property(j, at);
    let end = at + p.size;
    let start = at + 9 + p.name_length;
    let value = start.max(state);
    Portion {
        at: at.max(state),
        name: at + 8,
        name_length: p.name_length,
        deleted: p.deleted,
        value,
        length: end - value,
        end,
    }
}

// One piece stored: the name with its NUL, the descriptor, and so many bytes of the value; every other byte of the area stays.
fn store_piece(area: &mut [u8], to: usize, j: &[u8], p: Portion, descriptor: u32, n: usize)
    requires { (to + p.name_length + 5 + n ≤ length area.old) × (p.name + p.name_length ≤ length j.now) × (p.value + n ≤ length j.now) }
    ensures { area.new ≡ sets area.old to (stored_bytes j.now p descriptor n) }
{
    words::store(area, to, &j[p.name..p.name + p.name_length]);
    let behind = to + p.name_length;
    words::store_zeros(area, behind, 1);
    words::store_be32(area, behind + 1, descriptor);
    words::store(area, behind + 5, &j[p.value..p.value + n]);
}

// The descriptor of a change that goes whole, or whose value ends here.
fn last_descriptor(p: Portion) -> u32
    requires { p.length < 0x1_0000_0000 }
    ensures { result ≡ last_descriptor p }
{
    if p.deleted {
        return DELETION;
    }
    p.length as u32
}

// What was handed out: the number of pieces, and the offset of what is due behind them, where something is.
#[derive(Clone, Copy)]
pub struct Handed {
    pub count: usize,
    pub due: Option<usize>,
}

// The end of an area that the next change does not fit whole: a part of its value, where a byte of it fits.
fn write_last(area: &mut [u8], to: usize, j: &[u8], p: Portion, count: usize) -> Handed
    requires { Unfit area.old to j.now p count }
    ensures value { result ≡ last_handed p (area_size - to) count }
    ensures area_after { area.new ≡ sets area.old to (last_bytes j.now p (area_size - to)) }
{
    let room = AREA_SIZE - to;
    let header = p.name_length + 5;
    if room <= header {
        return Handed {
            count,
            due: Some(p.at),
        };
    }
    let length = room - header;
    store_piece(area, to, j, p, (0x1_0000_0000 - length) as u32, length);
    Handed {
        count: count + 1,
        due: Some(p.value + length),
    }
}

// The pieces of what is due at a state, from a place on where the session goes on; the head and every byte behind the pieces stay.
pub fn write_due(area: &mut [u8], j: &[u8], phandle: u32, state: usize, place: usize) -> Handed
    requires { (length area.old ≡ area_size) × Resumes phandle state j.now place }
    ensures { HandsOut phandle state j.now area.old area.new result }
{
    let mut at = next_change(j, phandle, place);
    let mut to = FIRST_AT;
    let mut count: usize = 0;
    while at < j.len() {
        let p = portion_at(j, at, state);
        let whole = p.name_length + 5 + p.length;
        if AREA_SIZE - to < whole {
            return write_last(area, to, j, p, count);
        }
        store_piece(area, to, j, p, last_descriptor(p), p.length);
        to += whole;
        count += 1;
        at = next_change(j, phandle, p.end);
    }
    Handed { count, due: None }
}
