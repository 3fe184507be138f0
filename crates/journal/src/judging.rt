// Judging the record at a place, by its length, kind and node type. No row is asked.
ghost use Rattle.std.specs.Prelude.{◌≡◌, Some, None, cond, ◌&&◌, ◌+◌, ◌≤◌, leb, length, drop};
ghost use Rattle.words.specs.Numbers.{le16};
ghost use Rattle.journal.specs.Terms.{IsKind, node_here, verdict_at};
ghost use Rattle.journal.specs.Inner.Terms.{length_for, framed_at, good_at};
ghost use Rattle.records.specs.Records.{size_of};

use records::Frame;

// What a record tells of itself before its operands.
#[derive(Clone, Copy)]
pub struct Shape {
    pub size: usize,
    pub kind: usize,
    pub node: usize,
}

// The node type of the record at a place.
pub fn read_type(j: &[u8], at: usize) -> u16
    requires { at + 6 ≤ length j.now }
    ensures { result ≡ le16 j.now (at + 4) }
{
    words::read_le16(j, at + 4)
}

// The length of a record of a kind: 12 for kind 3, 16 for 4, and 8 for 1 and 2. It is computed with no test, for the scan's speed.
fn length_of(kind: u16) -> u16
    requires { IsKind kind }
    ensures { result ≡ length_for kind }
{
    8 + ((kind + 1) / 4 + kind / 4) * 4
}

// The frame: whether a record fits where `left` bytes are left, its kind is one of those up to `most`, and its length the one of that kind.
// In this order of tests the scan is fastest.
fn is_framed(left: usize, frame: Frame, most: u16) -> bool
    requires { most ≤ 4 }
    ensures { result ≡ (leb frame.kind most && framed_at left frame.length frame.kind) }
{
    let size = records::record_size(frame);
    if left < size {
        return false;
    }
    let kind = frame.kind;
    if kind < 1 {
        return false;
    }
    if most < kind {
        return false;
    }
    frame.length == length_of(kind)
}

// Whether a record of this frame and node type is good where `left` bytes are left, and of a kind up to `most`. The bounds of the node type
// are computed from the kind, so that no branch depends on it.
fn is_good(left: usize, frame: Frame, node: u16, most: u16) -> bool
    requires { most ≤ 4 }
    ensures { result ≡ (leb frame.kind most && good_at left frame.length frame.kind node) }
{
    if !is_framed(left, frame, most) {
        return false;
    }
    let four = frame.kind / 4;
    1 + 14 * four <= node && node <= 14 + 2 * four
}

// The record at a place, where it is of a kind up to `most`: 4 for all, 3 for those without a unit.
pub fn judge(j: &[u8], at: usize, most: u16) -> Option<Shape>
    requires { (at ≤ length j.now) × (most ≤ 4) }
    ensures { result ≡ verdict_at most j.now at }
{
    let left = j.len() - at;
    if left < 10 {
        return None;
    }
    let frame = records::read_frame(j, at);
    let node = read_type(j, at);
    if !is_good(left, frame, node, most) {
        return None;
    }
    Some(Shape {
        size: records::record_size(frame),
        kind: frame.kind as usize,
        node: node as usize,
    })
}

// The size of the good record of a node at a place, where one stands there.
#[tactic(auto, using(crate::proofs::RecordLaws::given_bad, crate::proofs::RecordLaws::given_good))]
pub fn node_size(j: &[u8], at: usize) -> Option<usize>
    requires { at ≤ length j.now }
    ensures { result ≡ cond (node_here j.now at) (Some (size_of (drop at j.now))) None }
{
    judge(j, at, 4).map(|shape| shape.size)
}
