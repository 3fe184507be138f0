// Counting a journal anew, in one pass.
ghost use Rattle.std.specs.Prelude.{◌≡◌, cond, Some, None};
ghost use Rattle.tallies.specs.Tallies.{recount_of, recount_for};
ghost use Rattle.tallies.specs.Inner.Weighing.{tallies_from, weighed_of};
ghost use Rattle.tallies.specs.Keeping.{one_record};
ghost use Rattle.tallies.specs.Claims.Tallies.{RecountClaims};

use crate::tallies::Tallies;
use scanning::counts_of;
use stretch::{Packed, stretch_of};

// What a journal tells: how many records it has, and its tallies.
#[derive(Clone, Copy)]
struct Weighed {
    records: usize,
    tallies: Tallies,
}

// The tallies that packed counts are.
pub fn tallies_of(counts: Packed) -> Tallies
    ensures { result ≡ tallies_from counts }
{
    Tallies {
        negative: counts_of(counts.negative),
        first: counts_of(counts.first),
        second: counts_of(counts.second),
        third: counts_of(counts.third),
    }
}

// A buffer judged and counted.
fn weigh(j: &[u8]) -> Option<Weighed>
    ensures { result ≡ weighed_of j.now }
{
    if records::SIZE_LIMIT < j.len() {
        return None;
    }
    let all = stretch_of(j);
    if all.end < j.len() {
        return None;
    }
    Some(Weighed {
        records: all.records,
        tallies: tallies_of(all.counts),
    })
}

// Bytes that have to be exactly one good record, judged and counted.
#[tactic(auto, using(crate::proofs::Recounts::one_weighed, crate::proofs::Recounts::more_weighed, crate::proofs::Recounts::one_unweighed))]
pub fn weigh_one(r: &[u8]) -> Option<Tallies>
    ensures { result ≡ cond (one_record r.now) (Some (recount_of r.now)) None }
{
    let weighed = weigh(r)?;
    if weighed.records != 1 {
        return None;
    }
    Some(weighed.tallies)
}

// The tallies of a journal, counted anew; a malformed or oversized one has none.
#[tactic(auto, using(crate::proofs::Claims::recount_claims), unfolding(crate::specs::Tallies::recount_for, crate::specs::Inner::Weighing::weighed_of))]
pub fn recount(j: &[u8]) -> Option<Tallies>
    ensures value { result ≡ recount_for j.now }
    ensures claims { RecountClaims }
{
    weigh(j).map(|weighed| weighed.tallies)
}
