// Tallies and what is kept of a journal, as flat structs for the C boundary.
ghost use Rattle.std.specs.Prelude.{◌≡◌};
ghost use Rattle.draugsten_tallies.specs.Flat.{flat_counts, counts_from, flat_tallies, tallies_from, flat_tallied, tallied_from};

use journal::Counts;
use tallies::{Tallied, Tallies};

// How many operations of each opcode a row holds.
#[repr(C)]
#[derive(Clone, Copy)]
pub struct FlatCounts {
    pub deletes: u64,
    pub updates: u64,
    pub additions: u64,
}

// The rows of negative scopes, of scopes 1 and 2, and of scope 3 over all units.
#[repr(C)]
#[derive(Clone, Copy)]
pub struct FlatTallies {
    pub negative: FlatCounts,
    pub first: FlatCounts,
    pub second: FlatCounts,
    pub third: FlatCounts,
}

// How many bytes of a journal's buffer are in use, and its tallies.
#[repr(C)]
#[derive(Clone, Copy)]
pub struct FlatTallied {
    pub used: usize,
    pub tallies: FlatTallies,
}

impl From<Counts> for FlatCounts {
    ghost from_gives = { λ c f. f ≡ flat_counts c };

    fn from(c: Counts) -> FlatCounts {
        FlatCounts {
            deletes: c.deletes as u64,
            updates: c.updates as u64,
            additions: c.additions as u64,
        }
    }
}

impl From<FlatCounts> for Counts {
    ghost from_gives = { λ f c. c ≡ counts_from f };

    fn from(f: FlatCounts) -> Counts {
        Counts {
            deletes: f.deletes as usize,
            updates: f.updates as usize,
            additions: f.additions as usize,
        }
    }
}

impl From<Tallies> for FlatTallies {
    ghost from_gives = { λ t f. f ≡ flat_tallies t };

    fn from(t: Tallies) -> FlatTallies {
        FlatTallies {
            negative: t.negative.into(),
            first: t.first.into(),
            second: t.second.into(),
            third: t.third.into(),
        }
    }
}

impl From<FlatTallies> for Tallies {
    ghost from_gives = { λ f t. t ≡ tallies_from f };

    fn from(f: FlatTallies) -> Tallies {
        Tallies {
            negative: f.negative.into(),
            first: f.first.into(),
            second: f.second.into(),
            third: f.third.into(),
        }
    }
}

impl From<Tallied> for FlatTallied {
    ghost from_gives = { λ t f. f ≡ flat_tallied t };

    fn from(t: Tallied) -> FlatTallied {
        FlatTallied {
            used: t.used,
            tallies: t.tallies.into(),
        }
    }
}

impl From<FlatTallied> for Tallied {
    ghost from_gives = { λ f t. t ≡ tallied_from f };

    fn from(f: FlatTallied) -> Tallied {
        Tallied {
            used: f.used,
            tallies: f.tallies.into(),
        }
    }
}
