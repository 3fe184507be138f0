// The answer of update-nodes by the counts of a scope's row: no journal is looked at.
ghost use Rattle.std.specs.Prelude.{◌≡◌, ltb};
ghost use Rattle.node_area.specs.State.{total, is_within};
ghost use Rattle.forecast.specs.Forecast.{refused, answer_from, forecast_of};
ghost use Rattle.forecast.specs.Claims.Forecast.{ForecastClaims};

use calls::Status;
use journal::Counts;
use node_area::StateVariable;
use tallies::Tallies;

// The next state of a list that is finished.
const FINISHED: u64 = 0;

// What a call would answer: its status, and the State Variable that it would leave, in 64 bits, since tallies that no journal has can pass 32.
#[derive(Clone, Copy)]
pub struct Forecast {
    pub status: Status,
    pub next: u64,
}

// Whether a number is below that of all operations, whose sum may pass 2^64 - 1.
// Kept: count by count, and no sum in 128 bits, which the modules of the archives may not have (tools/carry.py).
fn is_below(n: u64, all: Counts) -> bool
    ensures { result ≡ ltb n (total all) }
{
    let deletes = all.deletes as u64;
    if n < deletes {
        return true;
    }
    let updates = all.updates as u64;
    if n - deletes < updates {
        return true;
    }
    n - deletes - updates < all.additions as u64
}

// Kept: StateVariable::is_within asks that the sum of all operations is below 2^64, and the tallies that come in here may be any.
fn is_within(n: u64, all: Counts) -> bool
    ensures { result ≡ is_within n (total all) }
{
    n == 0 || is_below(n, all)
}

fn refusal() -> Forecast
    ensures { result ≡ refused }
{
    Forecast {
        status: Status::Parameter,
        next: 0,
    }
}

// The answer of a list with so many operations of each opcode, from a state on.
fn answer_from(counts: Counts, state: StateVariable) -> Forecast
    ensures { result ≡ answer_from counts state.0 }
{
    let before = state.reported();
    if !is_within(before, counts) {
        return refusal();
    }
    let run = nodes::longest_run(state.remaining(counts));
    let after = before + (run.deletes + run.updates + run.additions) as u64;
    if is_below(after, counts) {
        return Forecast {
            status: Status::Again,
            next: after,
        };
    }
    Forecast {
        status: Status::Done,
        next: FINISHED,
    }
}

// What update-nodes would answer in a scope from a state on, by the tallies of its journal; of negative scopes, 1 and 2. All others get -3.
pub fn forecast_from(tallies: Tallies, scope: u32, state: StateVariable) -> Forecast
    ensures value { result ≡ forecast_of tallies scope state.0 }
    ensures claims { ForecastClaims }
{
    if 0x8000_0000 <= scope {
        return answer_from(tallies.negative, state);
    }
    if scope == 1 {
        return answer_from(tallies.first, state);
    }
    if scope == 2 {
        return answer_from(tallies.second, state);
    }
    refusal()
}
