// The counts of a trace, by token and status.
ghost use Rattle.std.specs.Prelude.{◌≡◌, ◌<◌, SomeIff};
ghost use Rattle.calls.specs.declared.status.Number.TheVariants as Number;
ghost use Rattle.calls.specs.Buffer.{number_for};
ghost use Rattle.counting.specs.Counts.{no_counts, place_of, counted_in, handed_out, counted};
ghost use Rattle.counting.specs.Claims.Counts.{CountClaims};
ghost use Rattle.counting.specs.Claims.CountsCame.{TraceCountClaims};
ghost use Rattle.counting.specs.Claims.Terms.{Within};
ghost use Rattle.counting.specs.Inner.Terms.{Small};

use crate::area::{Tally, no_tally, tally_at};
use calls::Number;

// Four tokens with seven statuses each.
pub const ROWS: usize = 28;

// For each token 1 to 4 the calls with each status, in the order 0, 1, -1, -3, -4, -9, -10; of update-nodes the operations handed out and the words used.
#[repr(C)]
#[derive(Clone, Copy)]
pub struct Counts {
    pub rows: [u64; ROWS],
    pub operations: u64,
    pub used: u64,
}

pub fn no_counts() -> Counts
    ensures { result ≡ no_counts }
{
    Counts {
        rows: [0; ROWS],
        operations: 0,
        used: 0,
    }
}

// The place of a status word among the seven, if it is one of them.
fn place_of(status: u32) -> Option<usize>
    ensures { SomeIff result (place_of status < 7) (place_of status) }
{
    match status {
        0 => Some(0),
        1 => Some(1),
        0xffff_ffff => Some(2),
        0xffff_fffd => Some(3),
        0xffff_fffc => Some(4),
        0xffff_fff7 => Some(5),
        0xffff_fff6 => Some(6),
        _ => None,
    }
}

// One call more in its row, with what it handed out.
fn count_as(counts: Counts, row: usize, more: Tally) -> Counts
    requires { Within 0xffff_fffe counts × ((row < 28) × Small more) }
    ensures { result ≡ counted_in counts row more }
{
    let mut rows = counts.rows;
    rows[row] += 1;
    Counts {
        rows,
        operations: counts.operations + more.operations,
        used: counts.used + more.words,
    }
}

// What a call handed out: something where it is an update-nodes call, with its own numbers of inputs and outputs, that was answered.
fn handed_out(status: u32, args: &[u8], memory: &[u8]) -> Tally
    requires { number_for args.now ≡ Number.Given }
    ensures { result ≡ handed_out status args.now memory.now }
{
    let token = words::read_be32(args, 0);
    let inputs = words::read_be32(args, 4);
    let outputs = words::read_be32(args, 8);
    if token != 1 || inputs != 2 || outputs != 1 || 1 < status {
        return no_tally();
    }
    tally_at(
        memory,
        words::read_be32(args, 12),
        words::read_be32(args, 16),
    )
}

// One call more, by its number, and by the argument buffer and memory that it left.
pub fn count_call(counts: Counts, number: Number, args: &[u8], memory: &[u8]) -> Counts
    requires { Within 0xffff_fffe counts × (number ≡ number_for args.now) }
    ensures value { result ≡ counted counts number args.now memory.now }
    ensures claims { CountClaims × TraceCountClaims }
{
    if !calls::is_given(number) {
        return counts;
    }
    let token = words::read_be32(args, 0);
    let at = 12 + 4 * (words::read_be32(args, 4) as usize);
    let status = words::read_be32(args, at);
    let Some(place) = place_of(status) else {
        return counts;
    };
    if token < 1 || 4 < token {
        return counts;
    }
    let row = 7 * (token as usize - 1) + place;
    count_as(counts, row, handed_out(status, args, memory))
}
