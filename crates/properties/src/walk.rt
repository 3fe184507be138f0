// The walk over a node's changes, on numbers: the room that is left in an area, and whether an area of the session ends at a state.
ghost use Rattle.std.specs.Prelude.{◌≡◌, ◌+◌, ◌<◌, ◌≤◌};
ghost use Rattle.properties.specs.Filling.{area_room};
ghost use Rattle.properties.specs.Session.{cuts, room_behind, begins, stops, room_after, member};
ghost use Rattle.properties.specs.Inner.Following.{walked_over};

// The bytes of an area behind its head.
pub const AREA_ROOM: usize = 4076;

// Where a change stands: its record's offset, the bytes of its name with NUL and descriptor, and its value's offset and length.
#[derive(Clone, Copy)]
pub struct Extent {
    pub at: usize,
    pub header: usize,
    pub start: usize,
    pub length: usize,
}

// What a value leaves behind it: the room of the area in which it ends, and whether an area ended in it at the state.
// Kept: the room stands whether or not an area ended at the state, so no Option holds the two.
#[derive(Clone, Copy)]
pub struct Gone {
    pub room: usize,
    pub found: bool,
}

// How far a walk has come: the room that is left, whether a change was met, and in which record an area ended at the state, where one did.
#[derive(Clone, Copy)]
pub struct Walk {
    pub room: usize,
    pub any: bool,
    pub place: Option<usize>,
}

// Goes through a value from cut to cut; `room` bytes of it fit this area, and `fresh` each further one.
fn go_through(fresh: usize, room: usize, start: usize, length: usize, state: usize) -> Gone
    requires { (0 < fresh) × (start + length < 0x1_0000_0000) }
    ensures { (result.room ≡ room_behind fresh room length) × (result.found ≡ member state (cuts fresh room start length)) }
{
    let mut r = room;
    let mut at = start;
    let mut left = length;
    let mut found = false;
    while r < left {
        at += r;
        left -= r;
        r = fresh;
        if at == state {
            found = true;
        }
    }
    Gone {
        room: r - left,
        found,
    }
}

// A change that does not fit the room whole: it begins here where a byte of its value fits, otherwise in the next area.
fn go_over(room: usize, e: Extent, state: usize) -> Gone
    requires { (e.header ≤ 36) × (e.start + e.length < 0x1_0000_0000) × (room < e.header + e.length) }
    ensures { (result.room ≡ room_after room e.header e.length) × (result.found ≡ member state (stops room e.header e.at e.start e.length)) }
{
    let fresh = AREA_ROOM - e.header;
    if e.header < room {
        return go_through(fresh, room - e.header, e.start, e.length, state);
    }
    let gone = go_through(fresh, fresh, e.start, e.length, state);
    if e.at == state {
        return Gone {
            room: gone.room,
            found: true,
        };
    }
    gone
}

// The walk over one change more. Most changes fit the room whole, and no area ends in them.
pub fn walk_over(walk: Walk, e: Extent, state: usize) -> Walk
    requires { (e.header ≤ 36) × (e.start + e.length < 0x1_0000_0000) }
    ensures { result ≡ walked_over walk e state }
{
    let whole = e.header + e.length;
    if whole <= walk.room {
        return Walk {
            room: walk.room - whole,
            any: true,
            place: walk.place,
        };
    }
    let gone = go_over(walk.room, e, state);
    Walk {
        room: gone.room,
        any: true,
        place: if gone.found { Some(e.at) } else { walk.place },
    }
}
