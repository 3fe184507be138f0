// The figures of a trace: what is added up over traces.
ghost use Rattle.std.specs.Prelude.{◌≡◌, ◌<◌, ◌^◌, ◌++◌, replicate, sum};
ghost use Rattle.counting.specs.Figures.{figures_of};
ghost use Rattle.counting.specs.Claims.Terms.{Within};

use crate::counts::{Counts, ROWS};
use totals::{FIGURES, Totals};

// The calls of rows together.
fn calls_in(rows: &[u64]) -> u64
    requires { sum rows.now < 2 ^ 64 }
    ensures { result ≡ sum rows.now }
{
    rows.iter().sum()
}

// The rows, and places for the further figures.
fn rows_first(rows: [u64; ROWS]) -> [u64; FIGURES]
    ensures { result ≡ rows ++ replicate 7 0 }
{
    let mut figures = [0u64; FIGURES];
    for i in 0..ROWS {
        figures[i] = rows[i];
    }
    figures
}

// The rows, the calls of each token, operations handed out, words used and words available.
pub fn figures_of(counts: Counts) -> Totals
    requires { Within 4_294_967_295 counts }
    ensures { result ≡ figures_of counts }
{
    let rows = counts.rows;
    let mut figures = rows_first(rows);
    figures[28] = calls_in(&rows[..7]);
    figures[29] = calls_in(&rows[7..14]);
    figures[30] = calls_in(&rows[14..21]);
    figures[31] = calls_in(&rows[21..]);
    figures[32] = counts.operations;
    figures[33] = counts.used;
    figures[34] = 1019 * calls_in(&rows[..2]);
    Totals { figures }
}
