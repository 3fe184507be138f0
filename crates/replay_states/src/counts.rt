// Which counts can have come beside a state.
ghost use Rattle.std.specs.Prelude.{◌≡◌, true, ◌≤◌, min};
ghost use Rattle.counting.specs.CountsCame.{made_came};
ghost use Rattle.counting.specs.Figures.{sum_of};
ghost use Rattle.replay_states.specs.States.{report_of, is_state, are_counts};

use crate::coming::waits_in;
use crate::state::{FlatReplay, FlatReport};
use counting::{Counts, ROWS};

// The calls of all rows, or 4,294,967,296 where there are more.
fn calls_counted(rows: [u64; ROWS]) -> u64
    ensures { result ≡ min (sum_of 28 rows) 0x1_0000_0000 }
{
    let mut sum: u64 = 0;
    for i in 0..ROWS {
        if 0x1_0000_0000 - sum <= rows[i] {
            return 0x1_0000_0000;
        }
        sum += rows[i];
    }
    sum
}

// Whether so many calls can have been made.
fn made_came(flat: FlatReport, records: u64, waits: u64, n: u64) -> bool
    requires { (n ≤ 0x1_0000_0000) × (waits ≤ 1) }
    ensures { result ≡ made_came (report_of flat) records waits n }
{
    if flat.verdict <= 1 {
        return n <= flat.number;
    }
    n + n + waits <= records
}

// No call is counted that was not made, an operation takes a word or more, and 1,019 words are available for each answered call.
pub fn are_counts(flat: FlatReplay, counts: Counts) -> bool
    requires { is_state flat ≡ true }
    ensures { result ≡ are_counts flat counts }
{
    let report = flat.report;
    let rows = counts.rows;
    let made = calls_counted(rows);
    if !made_came(report, flat.records, waits_in(flat.waiting), made) {
        return false;
    }
    if counts.used < counts.operations {
        return false;
    }
    counts.used <= 1019 * (rows[0] + rows[1])
}
