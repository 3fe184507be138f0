// Records of changed and deleted properties: judged, found by their phandle, and read.
ghost use Rattle.std.specs.Prelude.{◌≡◌, true, ◌&&◌, ◌+◌, ◌≤◌, ◌<◌, leb, eqb, length, drop};
ghost use Rattle.records.specs.Records.{kind_of, first_record};
ghost use Rattle.journal.specs.Property.{phandle_of, value_most, property_frame};
ghost use Rattle.journal.specs.Holding.{good_here, property_in, held_at, HoldsProperty};

use records::Frame;

// The most bytes of a property's name, without its NUL, and of its value.
pub const NAME_LIMIT: usize = 31;

pub const VALUE_LIMIT: usize = 32_768;

// Where the name stands in a record.
const NAME_AT: usize = 8;

// The sizes of a record with the shortest name and no value, and with the longest name and no value.
const LEAST_SIZE: usize = NAME_AT + 2;

const MOST_BARE: usize = NAME_AT + NAME_LIMIT + 1;

// A record of a property: the bytes that it takes, its phandle, whether it is a deletion, and the length of the name.
#[derive(Clone, Copy)]
pub struct PropertyRecord {
    pub size: usize,
    pub phandle: u32,
    pub deleted: bool,
    pub name_length: usize,
}

// The most bytes of value that a record of this kind may have.
fn value_most(kind: u16) -> usize
    ensures { result ≡ value_most kind }
{
    if kind == 5 { VALUE_LIMIT } else { 0 }
}

// The frame: whether a record fits where `left` bytes are left, its kind is 5 or 6, and its length in the range of that kind.
fn is_property_frame(left: usize, frame: Frame) -> bool
    ensures { result ≡ (leb (frame.length + 2) left && property_frame frame.length frame.kind) }
{
    let kind = frame.kind;
    if kind < 5 {
        return false;
    }
    if 6 < kind {
        return false;
    }
    let size = records::record_size(frame);
    if left < size {
        return false;
    }
    let most = MOST_BARE + value_most(kind);
    LEAST_SIZE <= size && size <= most
}

// The good record of a property at a place, where one stands there.
pub fn held_at(j: &[u8], at: usize) -> Option<PropertyRecord>
    requires { at ≤ length j.now }
    ensures { result ≡ held_at j.now at }
{
    let left = j.len() - at;
    if left < LEAST_SIZE {
        return None;
    }
    let frame = records::read_frame(j, at);
    if !is_property_frame(left, frame) {
        return None;
    }
    let size = records::record_size(frame);
    let name_length = words::ended_length(&j[at + NAME_AT..at + size], NAME_LIMIT)?;
    if value_most(frame.kind) < size - (NAME_AT + 1 + name_length) {
        return None;
    }
    Some(PropertyRecord {
        size,
        phandle: words::read_le32(j, at + 4),
        deleted: frame.kind == 6,
        name_length,
    })
}

// Whether the good record at a place tells of a property of the node with this phandle.
pub fn is_change(j: &[u8], at: usize, phandle: u32) -> bool
    requires { (good_here j.now at ≡ true) × (at ≤ length j.now) }
    ensures { result ≡ (leb 5 (kind_of (first_record (drop at j.now))) && eqb (phandle_of (first_record (drop at j.now))) phandle) }
{
    let frame = records::read_frame(j, at);
    let carried = words::read_le32(j, at + 4);
    5 <= frame.kind && carried == phandle
}

// The record of a property at a place, which was judged before.
pub fn read_property(j: &[u8], at: usize) -> PropertyRecord
    requires { HoldsProperty j.now at }
    ensures { result ≡ property_in j.now at }
{
    let frame = records::read_frame(j, at);
    let size = records::record_size(frame);
    PropertyRecord {
        size,
        phandle: words::read_le32(j, at + 4),
        deleted: frame.kind == 6,
        name_length: words::until_nul(&j[at + NAME_AT..at + size]),
    }
}
