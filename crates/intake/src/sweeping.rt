// All whole good records at once: judged and counted in one pass, and copied together.
ghost use Rattle.std.specs.Prelude.{◌≡◌, ◌&&◌, ◌||◌, leb, eqb, ltb, ◌+◌, ◌-◌, ◌≤◌, min, length};
ghost use Rattle.records.specs.Records.{size_limit};
ghost use Rattle.intake.specs.Bursts.{Ready};
ghost use Rattle.intake.specs.Inner.Terms.{Holds, Begins, Takeable, TakesStretch, Sweeps};

use crate::bursts::Intake;
use crate::taking::{Place, is_stopped};
use stretch::Stretch;

// No record of a node is longer.
const NODE_LIMIT: usize = 18;

// Where an intake stands behind the records that were taken, and the place of the burst behind them.
#[derive(Clone, Copy)]
pub struct Passed {
    pub place: Place,
    pub at: usize,
}

// The intake after a sweep, and the place of the burst behind what was taken.
#[derive(Clone, Copy)]
pub struct Swept {
    pub intake: Intake,
    pub at: usize,
}

// How many bytes more find room, in a buffer of this size and in a journal.
fn room_for(size: usize, used: usize) -> usize
    ensures { result ≡ min size size_limit - used }
{
    size.min(records::SIZE_LIMIT).saturating_sub(used)
}

// The held record, where it is one of a node and the burst is long enough to end any: the place of the burst behind it, and what it counts. Bytes
// of the burst go behind the held ones so that it can be judged.
fn begin_stretch(store: &mut [u8], held: usize, bytes: &[u8]) -> Stretch
    requires { Holds store.old held }
    ensures { Begins store.old held bytes.now store.new result }
{
    if held == 0 {
        return Stretch::nothing();
    }
    if NODE_LIMIT <= held {
        return Stretch::nothing();
    }
    if bytes.len() < NODE_LIMIT {
        return Stretch::nothing();
    }
    words::store(store, held, &bytes[..NODE_LIMIT]);
    let Some(shape) = journal::judge(&store[..held + NODE_LIMIT], 0, 4) else {
        return Stretch::nothing();
    };
    Stretch {
        end: shape.size - held,
        records: 1,
        counts: stretch::weights_for(shape.kind, shape.node),
    }
}

// A stretch that the held bytes begin, gone on with over a burst as far as there is room: its bytes go behind those in use, and are counted.
pub fn take_stretch(
    buffer: &mut [u8],
    held: &[u8],
    from: Place,
    bytes: &[u8],
    first: Stretch,
) -> Passed
    requires { Takeable buffer.old held.now from bytes.now first }
    ensures { TakesStretch buffer.old held.now from bytes.now buffer.new result }
{
    let journal = from.journal;
    let used = journal.used;
    let room = room_for(buffer.len(), used);
    let cut = bytes.len().min(room - held.len());
    let all = stretch::stretch_on(&bytes[..cut], first);
    let end = all.end;
    words::store(buffer, used, held);
    words::store(buffer, used + held.len(), &bytes[..end]);
    Passed {
        place: Place {
            journal: tallies::extended(journal, held.len() + end, all.counts),
            number: from.number.saturating_add(all.records as u64),
            ..from
        },
        at: end,
    }
}

// Whether nothing is held, or the held record ends at a place of the burst and finds room.
fn can_sweep(held: usize, end: usize, room: usize) -> bool
    requires { (held ≤ 0x7fff_ffff_ffff_ffff) × (end ≤ 0x7fff_ffff_ffff_ffff) }
    ensures { result ≡ (eqb held 0 || (ltb 0 end && leb (held + end) room)) }
{
    held == 0 || (0 < end && held + end <= room)
}

// The held record of a node, where the burst ends it, and the whole good records behind it that find room. An intake that has stopped, or whose held
// record is another, stays as it is.
pub fn sweep(buffer: &mut [u8], store: &mut [u8], from: Intake, bytes: &[u8]) -> Swept
    requires { Ready buffer.old store.old from }
    ensures { Sweeps buffer.old store.old from bytes.now buffer.new store.new result }
{
    let place = from.place;
    let held = from.held;
    let journal = place.journal;
    if is_stopped(place.fault) {
        return Swept {
            intake: from,
            at: 0,
        };
    }
    let first = begin_stretch(store, held, bytes);
    if !can_sweep(held, first.end, room_for(buffer.len(), journal.used)) {
        return Swept {
            intake: from,
            at: 0,
        };
    }
    let passed = take_stretch(buffer, &store[..held], place, bytes, first);
    let next = passed.place;
    let at = passed.at;
    let intake = Intake {
        place: next,
        held: 0,
    };
    Swept { intake, at }
}
