// A replay as a flat struct.
ghost use Rattle.std.specs.Prelude.{◌≡◌, ◌≤◌, IfSome};
ghost use Rattle.replay_states.specs.States.{flat_report_of, report_of, waiting_in, waiting_field, flat_replay_of, replay_with, replay_in};
ghost use Rattle.replay_states.specs.Inner.Terms.{Narrow};

use counting::Counts;
use crossing::{FlatReading, FlatRegistration};
use inventory::Edition;
use playing::Playing;
use replay::Replay;
use trace::Report;

// What a replay came to. Verdict 0: all calls agreed, so many. Verdict 1: the call of this number differs, at this offset. Verdict 2: the record of
// this number is malformed. The offset is 0 but for a difference.
#[repr(C)]
#[derive(Clone, Copy)]
pub struct FlatReport {
    pub verdict: u32,
    pub offset: u32,
    pub number: u64,
}

// Where a replay stands: how many records it has taken, what it came to so far, how many bytes of an unfinished record are held, the 32 that waits (0
// where none does, otherwise one more than the size of its body), the edition, and what the calls left.
#[repr(C)]
#[derive(Clone, Copy)]
pub struct FlatReplay {
    pub records: u64,
    pub report: FlatReport,
    pub held: usize,
    pub waiting: u32,
    pub edition: u32,
    pub registration: FlatRegistration,
    pub reading: FlatReading,
}

pub fn flat_report_of(report: Report) -> FlatReport
    ensures { result ≡ flat_report_of report }
{
    match report {
        Report::Agreed(calls) => FlatReport {
            verdict: 0,
            offset: 0,
            number: calls as u64,
        },
        Report::Differs(call, offset) => FlatReport {
            verdict: 1,
            offset,
            number: call as u64,
        },
        Report::Malformed(number) => FlatReport {
            verdict: 2,
            offset: 0,
            number,
        },
    }
}

fn report_of(flat: FlatReport) -> Report
    requires { Narrow flat }
    ensures { result ≡ report_of flat }
{
    if flat.verdict == 0 {
        return Report::Agreed(flat.number as u32);
    }
    if flat.verdict == 1 {
        return Report::Differs(flat.number as u32, flat.offset);
    }
    Report::Malformed(flat.number)
}

// The size of the body of the 32 that waits, if one does.
fn waiting_in(waiting: u32) -> Option<usize>
    ensures { result ≡ waiting_in waiting }
{
    if waiting == 0 {
        return None;
    }
    Some((waiting - 1) as usize)
}

fn waiting_of(waiting: Option<usize>) -> u32
    requires { IfSome waiting (λ size. size ≤ 4100) }
    ensures { result ≡ waiting_field waiting }
{
    match waiting {
        Some(size) => size as u32 + 1,
        None => 0,
    }
}

// The replay with these counts.
pub fn replay_of(flat: FlatReplay, counts: Counts) -> Replay
    requires { Narrow flat.report }
    ensures { result ≡ replay_with flat counts }
{
    let report = flat.report;
    let registration = flat.registration;
    let reading = flat.reading;
    let playing = Playing {
        records: flat.records,
        report: report_of(report),
        waiting: waiting_in(flat.waiting),
        edition: Edition(flat.edition),
        registration: crossing::registration_of(registration),
        reading: crossing::reading_of(reading),
    };
    Replay {
        playing,
        held: flat.held,
        counts,
    }
}

// The replay with nothing counted.
pub fn replay_alone(flat: FlatReplay) -> Replay
    requires { Narrow flat.report }
    ensures { result ≡ replay_in flat }
{
    replay_of(flat, counting::no_counts())
}

pub fn flat_replay_of(from: Replay) -> FlatReplay
    requires { IfSome from.playing.waiting (λ size. size ≤ 4100) }
    ensures { result ≡ flat_replay_of from }
{
    let playing = from.playing;
    let report = playing.report;
    let edition = playing.edition;
    let registration = playing.registration;
    let reading = playing.reading;
    FlatReplay {
        records: playing.records,
        report: flat_report_of(report),
        held: from.held,
        waiting: waiting_of(playing.waiting),
        edition: edition.0,
        registration: crossing::flat_of(registration),
        reading: crossing::flat_reading_of(reading),
    }
}
