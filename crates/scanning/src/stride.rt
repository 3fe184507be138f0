// Steps along a journal: records of the same header four at a time, those of kind 4 two at a time, others one at a time with no branch on
// their kind.
ghost use Rattle.std.specs.Prelude.{◌≡◌, ◌+◌, ◌*◌, ◌<◌, ◌≤◌, true, length, slice_index};
ghost use Rattle.words.specs.Numbers.{le};
ghost use Rattle.records.specs.Records.{size_limit};
ghost use Rattle.journal.specs.Journal.{largest_type};
ghost use Rattle.journal.specs.Terms.{node_here, shape_at, asked};
ghost use Rattle.scanning.specs.Inner.Terms.{four_headed, UnitHere, Reached, Passed, Known, Advanced, Weights};

use crate::noting::MARK_SPAN;
use journal::{Mark, Selection, Shape, Units};

// Records are passed one at a time for so many bytes; then a stride looks for equal headers again.
const EACH_SPAN: usize = 4096;

// Length 16, kind 4 and node type 15 as one number.
const UNIT_HEADER: u64 = 0xf_0004_0010;

// Records of one header without a unit, and what one of them adds to the packed counts.
#[derive(Clone, Copy)]
pub struct Same {
    pub header: u64,
    pub size: usize,
    pub weight: u64,
}

// What a record of this shape adds to the packed counts where its unit is asked for.
fn weight_of(weights: &[u64; 160], shape: Shape) -> u64
    requires { (shape.kind ≤ 4) × (shape.node ≤ largest_type) }
    ensures { result ≡ slice_index weights.now (32 * shape.kind + shape.node) }
{
    weights[32 * shape.kind + shape.node]
}

// What the record at a place adds, of a shape that was judged.
fn weigh(j: &[u8], at: usize, units: Units, weights: &[u64; 160], shape: Shape) -> u64
    requires { (node_here j.now at ≡ true) × (shape ≡ shape_at j.now at) }
    ensures { result ≡ asked units j.now at (slice_index weights.now (32 * shape.kind + shape.node)) }
{
    let weight = weight_of(weights, shape);
    weight * (journal::asked_here(j, at, units, shape.kind) as u64)
}

// The six bytes of a record's length, kind and node type as one number.
pub fn header_at(j: &[u8], at: usize) -> u64
    requires { at + 8 ≤ length j.now }
    ensures { result ≡ le 6 j.now at }
{
    let low = words::read_le32(j, at) as u64;
    let high = words::read_le16(j, at + 4) as u64;
    low + 0x1_0000_0000 * high
}

// Whether four records of a size, from a place on, have this header.
pub fn four_headers(j: &[u8], at: usize, size: usize, header: u64) -> bool
    requires { (at + (3 * size + 8) ≤ length j.now) × (size ≤ 18) }
    ensures { result ≡ four_headed j.now header size at }
{
    let a = header_at(j, at);
    let b = header_at(j, at + size);
    let c = header_at(j, at + 2 * size);
    let d = header_at(j, at + 3 * size);
    a == header && (b == header && (c == header && d == header))
}

// Past the records of a known header, four at a time, up to a limit. It stands as a function of its own in the object code: within the scan the loop
// has too few registers, and is slower.
#[inline(never)]
fn past_same(j: &[u8], selection: &Selection, from: Mark, same: Same, limit: usize) -> Mark
    requires { Reached selection.now j.now from × Known selection.now j.now same × (limit ≤ length j.now) ×
        (length j.now ≤ size_limit) }
    ensures { Reached selection.now j.now result × (from.at ≤ result.at) }
{
    let mut at = from.at;
    let mut counts = from.counts;
    let four = 4 * same.size;
    while at + four <= limit {
        if !four_headers(j, at, same.size, same.header) {
            break;
        }
        counts += 4 * same.weight;
        at += four;
    }
    Mark { at, counts }
}

// Whether a record of kind 4 stands at a place that has room for one. Its length, kind and node type are compared as one number: what it
// is more than that of node type 15 is nothing, or 1 in the type.
fn has_unit(j: &[u8], at: usize) -> bool
    requires { at + 18 ≤ length j.now }
    ensures { result ≡ true → UnitHere j.now at }
{
    let more = std::num::wrapping_sub_u64(words::read_le64(j, at), UNIT_HEADER)
        % 0x1_0000_0000_0000;
    more - more / 0x1_0000_0000 % 2 * 0x1_0000_0000 == 0
}

// Whether two stand there, one behind the other.
fn has_two_units(j: &[u8], at: usize) -> bool
    requires { at + 36 ≤ length j.now }
    ensures { result ≡ true → UnitHere j.now at × UnitHere j.now (at + 18) }
{
    let first = has_unit(j, at);
    let second = has_unit(j, at + 18);
    first && second
}

// Past records of kind 4, two at a time, up to a limit, where a row has the same for both of their node types.
fn past_units(
    j: &[u8],
    selection: &Selection,
    weights: &[u64; 160],
    from: Mark,
    limit: usize,
) -> Mark
    requires { Reached selection.now j.now from × Weights selection.now.sets weights.now × (limit ≤ length j.now) × (length j.now ≤ size_limit) }
    ensures { Reached selection.now j.now result × (from.at ≤ result.at) }
{
    let weight = weights[143];
    if weights[144] != weight {
        return from;
    }
    let wanted = journal::wanted_unit(selection.units);
    let mut at = from.at;
    let mut passed: usize = 0;
    let mut same: usize = 0;
    while at + 36 <= limit {
        if !has_two_units(j, at) {
            break;
        }
        same += journal::same_unit(wanted, journal::read_unit(j, at))
            + journal::same_unit(wanted, journal::read_unit(j, at + 18));
        passed += 2;
        at += 36;
    }
    let asked = journal::tally(selection.units, passed, same);
    Mark {
        at,
        counts: from.counts + weight * (asked as u64),
    }
}

// Past records of the kinds up to `most` one at a time, up to an end or another record: the step is the record's own length, and one sum
// counts all three opcodes. The step comes first, since the next turn waits for it.
fn past_each(
    j: &[u8],
    selection: &Selection,
    weights: &[u64; 160],
    from: Mark,
    end: usize,
    most: u16,
) -> Mark
    requires { Reached selection.now j.now from × Weights selection.now.sets weights.now × (end ≤ length j.now) × (length j.now ≤ size_limit) ×
        (most ≤ 4) }
    ensures { Reached selection.now j.now result × (from.at ≤ result.at) }
{
    let mut at = from.at;
    let mut counts = from.counts;
    while at < end {
        let Some(shape) = journal::judge(j, at, most) else {
            break;
        };
        let here = at;
        at += shape.size;
        counts += weigh(j, here, selection.units, weights, shape);
    }
    Mark { at, counts }
}

// Behind a record without a unit: past those of the same header, then past others without a unit.
fn behind_plain(
    j: &[u8],
    selection: &Selection,
    weights: &[u64; 160],
    from: Mark,
    same: Same,
) -> Mark
    requires { Reached selection.now j.now from × Weights selection.now.sets weights.now × Known selection.now j.now same ×
        (length j.now ≤ size_limit) }
    ensures { Reached selection.now j.now result × (from.at ≤ result.at) }
{
    let limit = j.len().min(from.at + MARK_SPAN);
    let past = past_same(j, selection, from, same, limit);
    let end = j.len().min(from.at + EACH_SPAN);
    past_each(j, selection, weights, past, end, 3)
}

// Behind a record of kind 4: past more of that kind, then past any.
fn behind_unit(j: &[u8], selection: &Selection, weights: &[u64; 160], from: Mark) -> Mark
    requires { Reached selection.now j.now from × Weights selection.now.sets weights.now × (length j.now ≤ size_limit) }
    ensures { Reached selection.now j.now result × (from.at ≤ result.at) }
{
    let limit = j.len().min(from.at + MARK_SPAN);
    let past = past_units(j, selection, weights, from, limit);
    let end = j.len().min(from.at + EACH_SPAN);
    past_each(j, selection, weights, past, end, 4)
}

// The place past records of properties, up to another record. None of them is reported.
fn past_properties(j: &[u8], from: usize) -> usize
    requires { (from < length j.now) × (length j.now ≤ size_limit) }
    ensures { Passed j.now from result }
{
    let mut at = from;
    while at < j.len() {
        let Some(p) = journal::held_at(j, at) else {
            break;
        };
        at += p.size;
    }
    at
}

// Past a record and more behind it, where a good one stands there.
pub fn stride(j: &[u8], selection: &Selection, weights: &[u64; 160], from: Mark) -> Option<Mark>
    requires { Reached selection.now j.now from × Weights selection.now.sets weights.now × (from.at < length j.now) ×
        (length j.now ≤ size_limit) }
    ensures { Advanced selection.now j.now (from.at + 1) result }
{
    let at = from.at;
    let Some(shape) = journal::judge(j, at, 4) else {
        let past = past_properties(j, at);
        if past == at {
            return None;
        }
        return Some(Mark {
            at: past,
            counts: from.counts,
        });
    };
    let first = Mark {
        at: at + shape.size,
        counts: from.counts + weigh(j, at, selection.units, weights, shape),
    };
    if shape.kind == 4 {
        return Some(behind_unit(j, selection, weights, first));
    }
    let same = Same {
        header: header_at(j, at),
        size: shape.size,
        weight: weight_of(weights, shape),
    };
    Some(behind_plain(j, selection, weights, first, same))
}
