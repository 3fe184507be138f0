// Which states of an intake are taken: those that a start and bursts can leave.
ghost use Rattle.std.specs.Prelude.{◌≡◌, false, not, ◌&&◌, leb, length, take};
ghost use Rattle.records.specs.Cutting.{ripe};
ghost use Rattle.intake.specs.Taking.{good_front};
ghost use Rattle.intake.specs.States.{ready_for};
ghost use Rattle.intake.specs.Claims.States.{ReadyExactly};

use crate::bursts::Intake;
use crate::judging::JournalFront;
use records::ripe_at;
use tallies::Refusal;

// Whether so many bytes at the front of a store are an unfinished record, or none.
fn is_unfinished(store: &[u8], held: usize) -> bool
    ensures { result ≡ (leb held (length store.now) && not (ripe good_front (take held store.now))) }
{
    if store.len() < held {
        return false;
    }
    ripe_at::<JournalFront>(&store[..held], 0).is_none()
}

// Whether an intake is one that a start or a burst can leave, with this store and a journal's buffer of this size.
#[tactic(auto, using(crate::proofs::Taken::ready_exactly), unfolding(crate::specs::States::ready_for))]
pub fn is_ready(store: &[u8], size: usize, from: Intake) -> bool
    ensures value { result ≡ ready_for store.now size from }
    ensures exactly { ReadyExactly }
{
    let place = from.place;
    if place.number < 1 || !tallies::is_fit(size, place.journal) {
        return false;
    }
    match place.fault {
        None => is_unfinished(store, from.held),
        Some(Refusal::Unfit) => false,
        Some(_) => from.held == 0,
    }
}
