// A replay that is fed in bursts: the held record is finished, whole records are played out of the burst in place, and what is left is held.
ghost use Rattle.std.specs.Prelude.{◌≡◌, ◌&&◌, ◌≤◌, ltb, length, take, is_some};
ghost use Rattle.counting.specs.Claims.Terms.{Within};
ghost use Rattle.replay.specs.Claims.Replay.{ReplayClaims};
ghost use Rattle.playing.specs.Played.{platform_of};
ghost use Rattle.replay.specs.Feeding.{start_of, end_of};
ghost use Rattle.replay.specs.Claims.Feeding.{Ready};
ghost use Rattle.replay.specs.Inner.Terms.{Feeds};
ghost use Rattle.replay.specs.Inner.Terms.{counted_front, Finishes, Passable, Passes};

use crate::filling::{gather, ripe_at};
use counting::{Counts, count_call};
use inventory::Edition;
use playing::{Playing, is_going, play};
use records::fill;
use rtas::number_for;
use trace::Report;

// Where a replay stands, how many bytes of an unfinished record are held, and what its calls counted.
#[derive(Clone, Copy)]
pub struct Replay {
    pub playing: Playing,
    pub held: usize,
    pub counts: Counts,
}

// What is held after the held record was looked to, the place that the burst was used up to, and the counts then.
#[derive(Clone, Copy)]
pub struct Finished {
    pub playing: Playing,
    pub held: usize,
    pub at: usize,
    pub counts: Counts,
}

// The replay after the whole records of a burst, the place behind them, and the counts then.
#[derive(Clone, Copy)]
pub struct Passed {
    pub playing: Playing,
    pub at: usize,
    pub counts: Counts,
}

// A replay from no registration and no reading in progress, over an inventory of this edition.
pub fn start(edition: Edition) -> Replay
    ensures value { result ≡ start_of edition }
    ensures claims { ReplayClaims }
{
    let playing = Playing {
        records: 0,
        report: Report::Agreed(0),
        waiting: None,
        edition,
        registration: dump::no_registration(),
        reading: index_calls::no_reading(),
    };
    Replay {
        playing,
        held: 0,
        counts: counting::no_counts(),
    }
}

// Whether a record made a call: it was taken where a 32 waited.
fn is_call(waits: bool, before: u64, after: u64) -> bool
    ensures { result ≡ (waits && ltb before after) }
{
    waits && before < after
}

// A call that left its argument buffer at the front of the lent one is counted.
fn count_front(counts: Counts, args: &[u8], size: usize, memory: &[u8]) -> Counts
    requires { Within 0xffff_fffe counts × (size ≤ length args.now) }
    ensures { result ≡ counted_front counts (take size args.now) memory.now }
{
    let number = number_for(&args[..size]);
    count_call(counts, number, &args[..size], memory)
}

// The held record, if there is one: it is played once it has all that is due, else it stays held.
fn finish(
    held: &mut [u8],
    args: &mut [u8],
    memory: &mut [u8],
    journal: &[u8],
    inventory: &[u8],
    from: Replay,
    bytes: &[u8],
) -> Finished
    requires { Ready held.old args.old from }
    ensures { Finishes (platform_of journal.now inventory.now from.playing) held.old args.old
        memory.old from bytes.now held.new args.new memory.new result }
{
    let playing = from.playing;
    let had = from.held;
    let mut counts = from.counts;
    if had == 0 {
        return Finished {
            playing,
            held: 0,
            at: 0,
            counts,
        };
    }
    let at = gather(held, had, bytes);
    let all = had + at;
    if ripe_at(&held[..all], 0) == 0 {
        return Finished {
            playing,
            held: all,
            at,
            counts,
        };
    }
    let next = play(args, memory, journal, inventory, playing, &held[..all]);
    if is_call(playing.waiting.is_some(), playing.records, next.records) {
        counts = count_front(counts, &*args, playing.waiting.unwrap_or(0), &*memory);
    }
    Finished {
        playing: next,
        held: 0,
        at,
        counts,
    }
}

// The whole records from a place on. A replay that has stopped passes everything.
fn pass(
    args: &mut [u8],
    memory: &mut [u8],
    journal: &[u8],
    inventory: &[u8],
    from: Passed,
    bytes: &[u8],
) -> Passed
    requires { Passable args.old from bytes.now }
    ensures { Passes (platform_of journal.now inventory.now from.playing) args.old memory.old
        bytes.now from args.new memory.new result }
{
    let mut playing = from.playing;
    let mut counts = from.counts;
    let mut at = from.at;
    loop {
        let report = playing.report;
        if !is_going(report) {
            return Passed {
                playing,
                at: bytes.len(),
                counts,
            };
        }
        let n = ripe_at(bytes, at);
        if n == 0 {
            return Passed {
                playing,
                at,
                counts,
            };
        }
        let waiting = playing.waiting;
        let before = playing.records;
        playing = play(
            args,
            memory,
            journal,
            inventory,
            playing,
            &bytes[at..at + n],
        );
        if is_call(waiting.is_some(), before, playing.records) {
            counts = count_front(counts, &*args, waiting.unwrap_or(0), &*memory);
        }
        at += n;
    }
}

// One burst, which may break anywhere.
pub fn feed(
    held: &mut [u8],
    args: &mut [u8],
    memory: &mut [u8],
    journal: &[u8],
    inventory: &[u8],
    from: Replay,
    bytes: &[u8],
) -> Replay
    requires { Ready held.old args.old from }
    ensures feeds { Feeds (platform_of journal.now inventory.now from.playing) held.old args.old
        memory.old from bytes.now held.new args.new memory.new result }
    ensures claims { ReplayClaims }
{
    let finished = finish(held, args, memory, journal, inventory, from, bytes);
    let playing = finished.playing;
    let counts = finished.counts;
    let still = finished.held;
    let at = finished.at;
    if 0 < still {
        return Replay {
            playing,
            held: still,
            counts,
        };
    }
    let begun = Passed {
        playing,
        at,
        counts,
    };
    let passed = pass(args, memory, journal, inventory, begun, bytes);
    let playing = passed.playing;
    let counts = passed.counts;
    let place = passed.at;
    let left = fill(held, 0, bytes, place, held.len());
    Replay {
        playing,
        held: left,
        counts,
    }
}

// What an end tells. It changes nothing.
pub fn end(from: Replay) -> Report
    requires { from.playing.records ≤ 4_294_967_295 }
    ensures value { result ≡ end_of from.playing.report from.playing.records (is_some from.playing.waiting) from.held }
    ensures claims { ReplayClaims }
{
    let playing = from.playing;
    let report = playing.report;
    if !is_going(report) {
        return report;
    }
    if playing.waiting.is_some() {
        return Report::Malformed(playing.records);
    }
    if from.held != 0 {
        return Report::Malformed(playing.records + 1);
    }
    report
}
