// The month: a replay that counts, and totals over traces.
ghost use Rattle.std.specs.Prelude.{◌≡◌, ◌≤◌, IfSome};
ghost use Rattle.counting.specs.Figures.{figures_of};
ghost use Rattle.counting.specs.Claims.Terms.{Within};
ghost use Rattle.draugsten_replay.specs.Month.{is_counting_by, judged_counting_by, flat_counting_start, CountingFeeds, counts_added, month_added};
ghost use Rattle.draugsten_replay.specs.Month.{merged_to, share_in};
ghost use Rattle.draugsten_replay.specs.Inner.Terms.{flat_counting_of};
ghost use Rattle.draugsten_replay.specs.Promises.{MonthPromise};

use counting::{Counts, figures_of};
use inventory::Edition;
use playing::is_going;
use replay::Replay;
use replay_states::{
    FlatReplay, FlatReport, are_counts, flat_replay_of, flat_report_of, is_state, judge, replay_of,
};
use shares::Share;
use totals::Totals;

// A replay, and what its calls counted so far.
#[repr(C)]
#[derive(Clone, Copy)]
pub struct FlatCounting {
    pub replay: FlatReplay,
    pub counts: Counts,
}

// What a burst gives: 0 where it was fed, or the number of its refusal, and the replay with its counts afterwards.
#[repr(C)]
#[derive(Clone, Copy)]
pub struct FlatCounted {
    pub number: u32,
    pub counting: FlatCounting,
}

// What adding a trace gives: 0 where its counts were added, or the number of the refusal, the report of the trace, and the totals.
#[repr(C)]
#[derive(Clone, Copy)]
pub struct FlatAdded {
    pub number: u32,
    pub report: FlatReport,
    pub totals: Totals,
}

// What adding other totals gives: 0 where they were added, or the number of the refusal, and the totals.
#[repr(C)]
#[derive(Clone, Copy)]
pub struct FlatMerged {
    pub number: u32,
    pub totals: Totals,
}

// A replay from no registration and no reading in progress, over an inventory of this edition, with nothing counted.
#[unsafe(no_mangle)]
pub extern "C" fn draugsten_month_start(edition: u32) -> FlatCounting
    ensures value { result ≡ flat_counting_start edition }
    ensures promise { MonthPromise }
{
    FlatCounting {
        replay: flat_replay_of(replay::start(Edition(edition))),
        counts: counting::no_counts(),
    }
}

// The number that a burst is refused with, or 0.
fn judge_counting(held: &[u8], room: usize, replay: FlatReplay, counts: Counts) -> u32
    ensures { result ≡ judged_counting_by held.now room replay counts }
{
    let number = judge(held, room, replay);
    if number != 0 {
        return number;
    }
    if are_counts(replay, counts) {
        return 0;
    }
    14
}

fn flat_counting_of(from: Replay) -> FlatCounting
    requires { IfSome from.playing.waiting (λ size. size ≤ 4100) }
    ensures { result ≡ flat_counting_of from }
{
    let counts = from.counts;
    FlatCounting {
        replay: flat_replay_of(from),
        counts,
    }
}

// One burst, which may break anywhere. What is refused changes nothing.
#[unsafe(no_mangle)]
pub extern "C" fn draugsten_month_feed(
    held: &mut [u8],
    args: &mut [u8],
    memory: &mut [u8],
    journal: &[u8],
    inventory: &[u8],
    from: FlatCounting,
    bytes: &[u8],
) -> FlatCounted
    ensures counting_feeds { CountingFeeds journal.now inventory.now held.old args.old memory.old from
        bytes.now held.new args.new memory.new result }
    ensures promise { MonthPromise }
{
    let replay = from.replay;
    let counts = from.counts;
    let number = judge_counting(held, args.len(), replay, counts);
    if number != 0 {
        return FlatCounted {
            number,
            counting: from,
        };
    }
    let next = replay::feed(
        held,
        args,
        memory,
        journal,
        inventory,
        replay_of(replay, counts),
        bytes,
    );
    FlatCounted {
        number: 0,
        counting: flat_counting_of(next),
    }
}

// Whether a state keeps every rule, and its counts with it.
fn is_counting(replay: FlatReplay, counts: Counts) -> bool
    ensures { result ≡ is_counting_by replay counts }
{
    is_state(replay) && are_counts(replay, counts)
}

// The counts of a trace that agreed, added to totals, all or none.
fn add_counts(totals: Totals, counts: Counts, report: FlatReport) -> FlatAdded
    requires { Within 4_294_967_295 counts }
    ensures { result ≡ counts_added totals (figures_of counts) report }
{
    match totals::add(totals, figures_of(counts)) {
        Ok(sums) => FlatAdded {
            number: 0,
            report,
            totals: sums,
        },
        Err(totals) => FlatAdded {
            number: 17,
            report,
            totals,
        },
    }
}

// A trace that ends here: its counts are added where all its calls agree. What is refused adds nothing.
#[unsafe(no_mangle)]
pub extern "C" fn draugsten_month_add(totals: Totals, from: FlatCounting) -> FlatAdded
    ensures value { result ≡ month_added totals from }
    ensures promise { MonthPromise }
{
    let replay = from.replay;
    let counts = from.counts;
    if !is_counting(replay, counts) {
        return FlatAdded {
            number: 14,
            report: FlatReport {
                verdict: 2,
                offset: 0,
                number: 0,
            },
            totals,
        };
    }
    let report = replay::end(replay_of(replay, counts));
    let flat = flat_report_of(report);
    if is_going(report) {
        return add_counts(totals, counts, flat);
    }
    FlatAdded {
        number: 16,
        report: flat,
        totals,
    }
}

// Totals of other traces are added, all figures or none.
#[unsafe(no_mangle)]
pub extern "C" fn draugsten_month_merge(totals: Totals, more: Totals) -> FlatMerged
    ensures value { result ≡ merged_to totals more }
    ensures promise { MonthPromise }
{
    if !totals::is_consistent(more) {
        return FlatMerged { number: 18, totals };
    }
    match totals::add(totals, more) {
        Ok(sums) => FlatMerged {
            number: 0,
            totals: sums,
        },
        Err(totals) => FlatMerged { number: 17, totals },
    }
}

// The share of the words available that were used, in lowest terms.
#[unsafe(no_mangle)]
pub extern "C" fn draugsten_month_share(totals: Totals) -> Share
    ensures value { result ≡ share_in totals }
    ensures promise { MonthPromise }
{
    let figures = totals.figures;
    shares::share_of(figures[33], figures[34])
}
