// Totals, and one trace's figures more.
ghost use Rattle.std.specs.Prelude.{◌≡◌};
ghost use Rattle.totals.specs.Adding.{no_totals, added_to};
ghost use Rattle.totals.specs.Claims.Totals.{TotalsClaims};

// How many figures there are: the calls of four tokens with seven statuses each, the calls of each token, operations handed out, words used and words
// available.
pub const FIGURES: usize = 35;

#[repr(C)]
#[derive(Clone, Copy)]
pub struct Totals {
    pub figures: [u64; FIGURES],
}

// The totals of no trace.
pub fn no_totals() -> Totals
    ensures { result ≡ no_totals }
{
    Totals {
        figures: [0; FIGURES],
    }
}

// All figures are added, or none: where a sum would pass 2^64 - 1, Err hands the totals back as they were.
pub fn add(totals: Totals, more: Totals) -> Result<Totals, Totals>
    ensures value { result ≡ added_to totals more }
    ensures claims { TotalsClaims }
{
    let mut sums = totals.figures;
    for i in 0..FIGURES {
        let Some(sum) = sums[i].checked_add(more.figures[i]) else {
            return Err(totals);
        };
        sums[i] = sum;
    }
    Ok(Totals { figures: sums })
}
