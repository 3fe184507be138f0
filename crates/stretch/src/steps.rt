// Steps along good records: those of the same header four at a time, others one at a time with no branch on their kind.
ghost use Rattle.std.specs.Prelude.{◌≡◌, ◌≤◌, ◌<◌, length};
ghost use Rattle.records.specs.Records.{size_limit};
ghost use Rattle.journal.specs.Holding.{good_here, property_here};
ghost use Rattle.stretch.specs.Inner.Stretches.{nothing, Light, Goes, Ends};
ghost use Rattle.stretch.specs.Inner.Terms.{grown_by, Grows, Known, Moves};

use crate::packed::{Packed, add_times};
use crate::weights::weights_for;

// Records of the same header are passed for so many bytes, then others for so many; then a stride looks for equal headers again.
const SAME_SPAN: usize = 16_384;

const EACH_SPAN: usize = 4096;

// How far whole good records go, how many they are, and the packed counts of what the rows report of them.
#[derive(Clone, Copy)]
pub struct Stretch {
    pub end: usize,
    pub records: usize,
    pub counts: Packed,
}

impl Stretch {
    // A stretch of no records.
    pub fn nothing() -> Stretch
        ensures { result ≡ nothing }
    {
        Stretch {
            end: 0,
            records: 0,
            counts: Packed::none(),
        }
    }
}

// Records of one header, and what one of them adds.
#[derive(Clone, Copy)]
struct Same {
    header: u64,
    size: usize,
    weight: Packed,
}

// So many records of a size more, each of this weight.
fn grown(from: Stretch, n: usize, size: usize, weight: Packed) -> Stretch
    requires { Grows from n size weight }
    ensures { result ≡ grown_by from n size weight }
{
    Stretch {
        end: from.end + n * size,
        records: from.records + n,
        counts: add_times(from.counts, n as u64, weight),
    }
}

// Past records of a known header, four at a time, up to a limit.
fn past_same(j: &[u8], from: Stretch, same: Same, limit: usize) -> Stretch
    requires { Light j.now from × Known j.now same × (limit ≤ length j.now) }
    ensures { Goes j.now from result × Light j.now result }
{
    let mut s = from;
    while s.end + 4 * same.size <= limit {
        if !scanning::four_headers(j, s.end, same.size, same.header) {
            break;
        }
        s = grown(s, 4, same.size, same.weight);
    }
    s
}

// Past records of nodes one at a time, up to an end or another record.
fn past_each(j: &[u8], from: Stretch, end: usize) -> Stretch
    requires { Light j.now from × (end ≤ length j.now) }
    ensures { Goes j.now from result × Light j.now result }
{
    let mut s = from;
    while s.end < end {
        let Some(shape) = journal::judge(j, s.end, 4) else {
            break;
        };
        s = grown(s, 1, shape.size, weights_for(shape.kind, shape.node));
    }
    s
}

// Past records of properties, up to another record. None of them is reported.
fn past_properties(j: &[u8], from: Stretch) -> Stretch
    requires { Light j.now from }
    ensures { Goes j.now from result × Light j.now result × Ends property_here j.now result }
{
    let mut s = from;
    while s.end < j.len() {
        let Some(p) = journal::held_at(j, s.end) else {
            break;
        };
        s = grown(s, 1, p.size, Packed::none());
    }
    s
}

// Behind a record of a node: past those of the same header, then past others.
fn behind_node(j: &[u8], from: Stretch, same: Same) -> Stretch
    requires { Light j.now from × Known j.now same }
    ensures { Goes j.now from result × Light j.now result }
{
    let limit = j.len().min(from.end + SAME_SPAN);
    let end = j.len().min(from.end + EACH_SPAN);
    let past = past_same(j, from, same, limit);
    past_each(j, past, end)
}

// Past a good record and more behind it; the same stretch where none stands.
fn stride(j: &[u8], from: Stretch) -> Stretch
    requires { Light j.now from × (from.end < length j.now) }
    ensures { Goes j.now from result × Light j.now result × Moves j.now from result }
{
    let Some(shape) = journal::judge(j, from.end, 4) else {
        return past_properties(j, from);
    };
    let weight = weights_for(shape.kind, shape.node);
    let same = Same {
        header: scanning::header_at(j, from.end),
        size: shape.size,
        weight,
    };
    behind_node(j, grown(from, 1, shape.size, weight), same)
}

// A stretch gone on with over a buffer, up to its end or the first place where no good record stands.
pub fn stretch_on(j: &[u8], from: Stretch) -> Stretch
    requires { Light j.now from }
    ensures { Goes j.now from result × Light j.now result × Ends good_here j.now result }
{
    let mut s = from;
    while s.end < j.len() {
        let next = stride(j, s);
        if next.end == s.end {
            return s;
        }
        s = next;
    }
    s
}

// The stretch from a buffer's start.
pub fn stretch_of(j: &[u8]) -> Stretch
    requires { length j.now ≤ size_limit }
    ensures { Goes j.now nothing result × Ends good_here j.now result }
{
    stretch_on(j, Stretch::nothing())
}
