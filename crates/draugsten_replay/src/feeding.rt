// Start, feed and end over the flat state.
ghost use Rattle.std.specs.Prelude.{◌≡◌};
ghost use Rattle.draugsten_replay.specs.Feeding.{FlatFeeds, flat_start, flat_end_of};
ghost use Rattle.draugsten_replay.specs.Promises.{ReplayPromise};

use inventory::Edition;
use replay_states::{
    FlatReplay, FlatReport, flat_replay_of, flat_report_of, is_state, judge, replay_alone,
};

// What a burst gives: 0 where it was fed, or the number of its refusal, and the replay afterwards.
#[repr(C)]
#[derive(Clone, Copy)]
pub struct FlatFed {
    pub number: u32,
    pub replay: FlatReplay,
}

// What an end gives: 0, or the number of its refusal, and the report.
#[repr(C)]
#[derive(Clone, Copy)]
pub struct FlatEnded {
    pub number: u32,
    pub report: FlatReport,
}

// A replay from no registration and no reading in progress, over an inventory of this edition.
#[unsafe(no_mangle)]
pub extern "C" fn draugsten_replay_start(edition: u32) -> FlatReplay
    ensures value { result ≡ flat_start edition }
    ensures promise { ReplayPromise }
{
    flat_replay_of(replay::start(Edition(edition)))
}

// One burst, which may break anywhere. What is refused changes nothing.
#[unsafe(no_mangle)]
pub extern "C" fn draugsten_replay_feed(
    held: &mut [u8],
    args: &mut [u8],
    memory: &mut [u8],
    journal: &[u8],
    inventory: &[u8],
    from: FlatReplay,
    bytes: &[u8],
) -> FlatFed
    ensures flat_feeds { FlatFeeds journal.now inventory.now held.old args.old memory.old from
        bytes.now held.new args.new memory.new result }
    ensures promise { ReplayPromise }
{
    let number = judge(held, args.len(), from);
    if number != 0 {
        return FlatFed {
            number,
            replay: from,
        };
    }
    let next = replay::feed(
        held,
        args,
        memory,
        journal,
        inventory,
        replay_alone(from),
        bytes,
    );
    FlatFed {
        number: 0,
        replay: flat_replay_of(next),
    }
}

// What an end tells. It changes nothing.
#[unsafe(no_mangle)]
pub extern "C" fn draugsten_replay_end(from: FlatReplay) -> FlatEnded
    ensures value { result ≡ flat_end_of from }
    ensures promise { ReplayPromise }
{
    if !is_state(from) {
        return FlatEnded {
            number: 14,
            report: FlatReport {
                verdict: 2,
                offset: 0,
                number: 0,
            },
        };
    }
    FlatEnded {
        number: 0,
        report: flat_report_of(replay::end(replay_alone(from))),
    }
}
