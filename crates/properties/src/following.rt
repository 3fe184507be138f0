// One pass over the journal: it is judged, the node's changes are found, and its session is followed from state to state.
ghost use Rattle.std.specs.Prelude.{◌≡◌, ◌+◌, ◌<◌, ◌≤◌, length};
ghost use Rattle.properties.specs.Inner.Following.{extent_of, walked_past, FollowFinds};

use crate::walk::{AREA_ROOM, Extent, Walk, walk_over};
use journal::PropertyRecord;

// Why a call is refused: the journal is malformed, or what the area carries is refused, as a state that the node's session never carries.
#[derive(Clone, Copy, PartialEq, Eq)]
pub enum Refusal {
    Malformed,
    Carried,
}

// Where the change of a record at a place stands.
fn extent_of(at: usize, p: PropertyRecord) -> Extent
    requires { (9 + p.name_length ≤ p.size) × (at + p.size < 0x1_0000_0000) }
    ensures { result ≡ extent_of at p }
{
    let start = 9 + p.name_length;
    Extent {
        at,
        header: p.name_length + 5,
        start: at + start,
        length: p.size - start,
    }
}

// The walk past the record of a property: one of another node leaves it as it was.
fn walk_past(walk: Walk, at: usize, p: PropertyRecord, phandle: u32, state: usize) -> Walk
    requires { (9 + p.name_length ≤ p.size) × (p.name_length ≤ 31) × (at + p.size < 0x1_0000_0000) }
    ensures { result ≡ walked_past walk at p phandle state }
{
    if p.phandle != phandle {
        return walk;
    }
    walk_over(walk, extent_of(at, p), state)
}

// Follows the session of a node, and tells from the record at which place it goes on at a state.
pub fn follow(j: &[u8], phandle: u32, state: u32) -> Result<usize, Refusal>
    ensures { FollowFinds phandle state j.now result }
{
    if records::SIZE_LIMIT < j.len() {
        return Err(Refusal::Malformed);
    }
    let mut at: usize = 0;
    let mut walk = Walk {
        room: AREA_ROOM,
        any: false,
        place: (state == 0).then_some(0),
    };
    while at < j.len() {
        if let Some(p) = journal::held_at(j, at) {
            walk = walk_past(walk, at, p, phandle, state as usize);
            at += p.size;
        } else {
            let Some(size) = journal::node_size(j, at) else {
                return Err(Refusal::Malformed);
            };
            at += size;
        }
    }
    if !walk.any {
        return Err(Refusal::Carried);
    }
    walk.place.ok_or(Refusal::Carried)
}
