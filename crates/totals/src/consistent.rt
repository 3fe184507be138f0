// Whether totals can be those of traces.
ghost use Rattle.std.specs.Prelude.{◌≡◌, eqb, sum};
ghost use Rattle.totals.specs.Consistent.{calls_agree, words_agree, consistent};
ghost use Rattle.totals.specs.Claims.Consistent.{ConsistentClaims};

use crate::adding::{FIGURES, Totals};

// Whether a number is the sum of figures. Each is taken from what is left of the number, so nothing overflows.
fn is_sum(whole: u64, figures: &[u64]) -> bool
    ensures { result ≡ eqb whole (sum figures.now) }
{
    let mut rest = whole;
    for figure in figures {
        let Some(left) = rest.checked_sub(*figure) else {
            return false;
        };
        rest = left;
    }
    rest == 0
}

// The calls of each token.
fn calls_agree(figures: &[u64; FIGURES]) -> bool
    ensures { result ≡ calls_agree figures.now }
{
    is_sum(figures[28], &figures[..7])
        && is_sum(figures[29], &figures[7..14])
        && is_sum(figures[30], &figures[14..21])
        && is_sum(figures[31], &figures[21..28])
}

// Operations, words used and words available.
fn words_agree(figures: &[u64; FIGURES]) -> bool
    ensures { result ≡ words_agree figures.now }
{
    let operations = figures[32];
    let used = figures[33];
    let available = figures[34];
    available % 1019 == 0
        && is_sum(available / 1019, &figures[..2])
        && operations <= used
        && used <= available
}

// Whether the figures agree with each other.
pub fn is_consistent(totals: Totals) -> bool
    ensures value { result ≡ consistent totals }
    ensures claims { ConsistentClaims }
{
    let figures = totals.figures;
    calls_agree(&figures) && words_agree(&figures)
}
