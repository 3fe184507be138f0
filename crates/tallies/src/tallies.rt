// The tallies: twelve counts, and their sums.
ghost use Rattle.std.specs.Prelude.{◌≡◌};
ghost use Rattle.tallies.specs.Tallies.{no_counts, no_tallies, count_sum, tally_sum, counts_within, tallies_within};
ghost use Rattle.tallies.specs.Inner.Weighing.{CountsFit, TalliesFit};

use journal::Counts;

// How many operations of each opcode the rows hold: of negative scopes, of scopes 1 and 2, and of scope 3 over all units.
#[derive(Clone, Copy)]
pub struct Tallies {
    pub negative: Counts,
    pub first: Counts,
    pub second: Counts,
    pub third: Counts,
}

fn no_counts() -> Counts
    ensures { result ≡ no_counts }
{
    Counts {
        deletes: 0,
        updates: 0,
        additions: 0,
    }
}

// The tallies of an empty journal.
pub fn no_tallies() -> Tallies
    ensures { result ≡ no_tallies }
{
    Tallies {
        negative: no_counts(),
        first: no_counts(),
        second: no_counts(),
        third: no_counts(),
    }
}

fn sum_of(a: Counts, b: Counts) -> Counts
    requires { CountsFit a b }
    ensures { result ≡ count_sum a b }
{
    Counts {
        deletes: a.deletes + b.deletes,
        updates: a.updates + b.updates,
        additions: a.additions + b.additions,
    }
}

// Tallies added up, count by count.
pub fn add(a: Tallies, b: Tallies) -> Tallies
    requires { TalliesFit a b }
    ensures { result ≡ tally_sum a b }
{
    Tallies {
        negative: sum_of(a.negative, b.negative),
        first: sum_of(a.first, b.first),
        second: sum_of(a.second, b.second),
        third: sum_of(a.third, b.third),
    }
}

fn are_within(counts: Counts, limit: usize) -> bool
    ensures { result ≡ counts_within limit counts }
{
    counts.deletes <= limit && counts.updates <= limit && counts.additions <= limit
}

// Whether no count is above a limit.
#[tactic(auto, unfolding(crate::specs::Tallies::tallies_within))]
pub fn is_within(tallies: Tallies, limit: usize) -> bool
    ensures { result ≡ tallies_within limit tallies }
{
    are_within(tallies.negative, limit)
        && are_within(tallies.first, limit)
        && are_within(tallies.second, limit)
        && are_within(tallies.third, limit)
}
