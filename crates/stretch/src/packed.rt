// The counts of the four rows, each row's three in one number.
ghost use Rattle.std.specs.Prelude.{◌≡◌};
ghost use Rattle.stretch.specs.Packed.{no_packed, plus};
ghost use Rattle.stretch.specs.Inner.Terms.{times, Narrow};

// Packed counts of the rows of negative scopes, of scopes 1 and 2, and of scope 3 over all units.
#[derive(Clone, Copy)]
pub struct Packed {
    pub negative: u64,
    pub first: u64,
    pub second: u64,
    pub third: u64,
}

impl Packed {
    // No operation of any row.
    pub fn none() -> Packed
        ensures { result ≡ no_packed }
    {
        Packed {
            negative: 0,
            first: 0,
            second: 0,
            third: 0,
        }
    }
}

// Counts with those of so many records more.
pub fn add_times(counts: Packed, n: u64, weight: Packed) -> Packed
    requires { Narrow (plus counts (times n weight)) }
    ensures { result ≡ plus counts (times n weight) }
{
    Packed {
        negative: counts.negative + n * weight.negative,
        first: counts.first + n * weight.first,
        second: counts.second + n * weight.second,
        third: counts.third + n * weight.third,
    }
}
