// A burst: the held record is finished, whole records are taken out of the burst in place, and what is left is held.
ghost use Rattle.std.specs.Prelude.{◌≡◌, ◌≤◌, length};
ghost use Rattle.intake.specs.Bursts.{Ready, Bursts, start_of, end_of};
ghost use Rattle.intake.specs.Taking.{taking_of};
ghost use Rattle.intake.specs.Inner.Terms.{Sound, Finishes, Settles, Advanceable, Advances, Passes};
ghost use Rattle.tallies.specs.Claims.Tallies.{TallyClaims};
ghost use Rattle.intake.specs.Claims.Intake.{IntakeClaims};

use crate::judging::JournalFront;
use crate::sweeping::{Passed, sweep, take_stretch};
use crate::taking::{Place, is_stopped, take};
use records::{fill, gather, ripe_at};
use stretch::Stretch;
use tallies::{Refusal, Tallied};

// Where an intake stands between bursts: between records as its place says, and how many bytes of an unfinished record are held.
#[derive(Clone, Copy)]
pub struct Intake {
    pub place: Place,
    pub held: usize,
}

// What is held after the held record was looked to, and the place that the burst was used up to.
#[derive(Clone, Copy)]
struct Finished {
    place: Place,
    held: usize,
    at: usize,
}

// An intake over a tallied journal as it is.
pub fn start(journal: Tallied) -> Intake
    ensures value { result ≡ start_of journal }
    ensures claims { TallyClaims × IntakeClaims }
{
    Intake {
        place: Place {
            journal,
            number: 1,
            fault: None,
        },
        held: 0,
    }
}

// The held record, if there is one: it is taken once it has all that is due, else it stays held.
fn finish(buffer: &mut [u8], store: &mut [u8], from: Intake, bytes: &[u8]) -> Finished
    requires { Ready buffer.old store.old from }
    ensures { Finishes buffer.old store.old from bytes.now buffer.new store.new result }
{
    let place = from.place;
    let had = from.held;
    if had == 0 {
        return Finished {
            place,
            held: 0,
            at: 0,
        };
    }
    let at = gather::<JournalFront>(store, had, bytes);
    let all = had + at;
    if ripe_at::<JournalFront>(&store[..all], 0).is_none() {
        return Finished {
            place,
            held: all,
            at,
        };
    }
    let next = take(buffer, place, &store[..all]);
    Finished {
        place: next,
        held: 0,
        at,
    }
}

// Past the record of so many bytes at a place, with more good ones behind it where it is good and finds room.
fn advance(buffer: &mut [u8], from: Passed, bytes: &[u8], n: usize) -> Passed
    requires { Advanceable buffer.old from bytes.now n }
    ensures { Advances buffer.old from bytes.now buffer.new result }
{
    let at = from.at;
    let run = take_stretch(
        buffer,
        &bytes[..0],
        from.place,
        &bytes[at..],
        Stretch::nothing(),
    );
    let place = run.place;
    let more = run.at;
    if 0 < more {
        return Passed {
            place,
            at: at + more,
        };
    }
    let next = take(buffer, place, &bytes[at..at + n]);
    Passed {
        place: next,
        at: at + n,
    }
}

// The whole records from a place on. An intake that has stopped passes everything.
fn pass(buffer: &mut [u8], from: Passed, bytes: &[u8]) -> Passed
    requires { (from.at ≤ length bytes.now) × Sound (taking_of buffer.old from.place) }
    ensures { Passes buffer.old from bytes.now buffer.new result }
{
    let mut place = from.place;
    let mut at = from.at;
    loop {
        if is_stopped(place.fault) {
            return Passed {
                place,
                at: bytes.len(),
            };
        }
        let Some(n) = ripe_at::<JournalFront>(bytes, at) else {
            return Passed { place, at };
        };
        let next = advance(buffer, Passed { place, at }, bytes, n);
        place = next.place;
        at = next.at;
    }
}

// The held record finished, the whole records passed, and the rest held.
fn settle(buffer: &mut [u8], store: &mut [u8], from: Intake, bytes: &[u8]) -> Intake
    requires { Ready buffer.old store.old from }
    ensures { Settles buffer.old store.old from bytes.now buffer.new store.new result }
{
    let finished = finish(buffer, store, from, bytes);
    let place = finished.place;
    let still = finished.held;
    let at = finished.at;
    if 0 < still {
        return Intake { place, held: still };
    }
    let passed = pass(buffer, Passed { place, at }, bytes);
    let place = passed.place;
    let end = passed.at;
    let left = fill(store, 0, bytes, end, store.len());
    Intake { place, held: left }
}

// One burst, which may break anywhere. What can be taken at once is taken first.
pub fn burst(buffer: &mut [u8], store: &mut [u8], from: Intake, bytes: &[u8]) -> Intake
    requires { Ready buffer.old store.old from }
    ensures bursts { Bursts buffer.old store.old from bytes.now buffer.new store.new result }
    ensures claims { TallyClaims × IntakeClaims }
{
    let swept = sweep(buffer, store, from, bytes);
    let next = swept.intake;
    let at = swept.at;
    settle(buffer, store, next, &bytes[at..])
}

// What an end says: nothing, that the stream ends inside the record of this number, or the refusal of the record of this number.
#[derive(Clone, Copy)]
pub enum Ending {
    Nothing,
    Unfinished(u64),
    Malformed(u64),
    NoRoom(u64),
    Unfit(u64),
}

// What an end says. It changes nothing: a later burst goes on where the record stopped.
#[tactic(auto, using(tallies::proofs::Claims::tally_claims, crate::proofs::Claims::intake_claims))]
pub fn end(from: Intake) -> Ending
    ensures value { result ≡ end_of from }
    ensures claims { TallyClaims × IntakeClaims }
{
    let number = from.place.number;
    match from.place.fault {
        Some(Refusal::Malformed) => Ending::Malformed(number),
        Some(Refusal::NoRoom) => Ending::NoRoom(number),
        Some(Refusal::Unfit) => Ending::Unfit(number),
        None if from.held == 0 => Ending::Nothing,
        None => Ending::Unfinished(number),
    }
}
