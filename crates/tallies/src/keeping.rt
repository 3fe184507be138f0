// A journal in a lent buffer, of which a number of bytes are in use, with its tallies beside it.
ghost use Rattle.std.specs.Prelude.{◌≡◌, ◌+◌, ◌≤◌, IfSome, Some, is_some};
ghost use Rattle.tallies.specs.Keeping.{nothing, fits, has_room, leaves, attached, append_of, join_of};
ghost use Rattle.tallies.specs.Tallies.{recount_of};
ghost use Rattle.tallies.specs.Inner.Weighing.{Extends, extended_by};
ghost use Rattle.tallies.specs.Claims.Tallies.{TallyClaims};
ghost use Rattle.tallies.specs.Claims.Joining.{JoinClaims};

use crate::counting::{recount, tallies_of, weigh_one};
use crate::tallies::{Tallies, add, is_within, no_tallies};
use stretch::Packed;

// How many bytes of the buffer are in use, and the tallies of the journal that they are.
#[derive(Clone, Copy)]
pub struct Tallied {
    pub used: usize,
    pub tallies: Tallies,
}

// Why an operation changed nothing. Unfit: more bytes in use than the buffer has, or a count above the bytes in use, which no journal has.
#[derive(Clone, Copy, PartialEq, Eq)]
pub enum Refusal {
    Malformed,
    NoRoom,
    Unfit,
}

// What an operation gives: the use and the tallies afterwards, and why it was refused, if it was.
#[derive(Clone, Copy)]
pub struct Kept {
    pub next: Tallied,
    pub outcome: Option<Refusal>,
}

// The use and the tallies of an empty journal: a journal starts with them, and is cleared by them. No byte of its buffer changes.
pub fn cleared() -> Tallied
    ensures value { result ≡ nothing }
    ensures claims { TallyClaims }
{
    Tallied {
        used: 0,
        tallies: no_tallies(),
    }
}

// Whether the use and the tallies can be those of a journal in a buffer of this size.
#[tactic(auto, unfolding(crate::specs::Keeping::fits))]
pub fn is_fit(size: usize, journal: Tallied) -> bool
    ensures { result ≡ fits size journal }
{
    journal.used <= size && is_within(journal.tallies, journal.used)
}

// The use and the tallies with so many bytes more, which were put behind those in use and counted.
pub fn extended(journal: Tallied, more: usize, counts: Packed) -> Tallied
    requires { Extends journal more }
    ensures { result ≡ extended_by journal more counts }
{
    Tallied {
        used: journal.used + more,
        tallies: add(journal.tallies, tallies_of(counts)),
    }
}

// Whether so many bytes more find room, in a buffer of this size and in a journal.
#[tactic(auto, unfolding(crate::specs::Keeping::has_room))]
fn has_room(size: usize, used: usize, more: usize) -> bool
    requires { used ≤ size }
    ensures { result ≡ has_room size used more }
{
    more <= size - used && used + more <= records::SIZE_LIMIT
}

// A refusal hands the use and the tallies back as they came.
fn refused(journal: Tallied, refusal: Refusal) -> Kept
    ensures { result ≡ record { next = journal; outcome = Some refusal } }
{
    Kept {
        next: journal,
        outcome: Some(refusal),
    }
}

// A part put behind the bytes in use, with its tallies where it was counted before and found good. A refusal changes no byte.
fn attach(buffer: &mut [u8], journal: Tallied, part: &[u8], counted: Option<Tallies>) -> Kept
    requires { IfSome counted (λ t. t ≡ recount_of part.now) }
    ensures { leaves buffer.new result ≡ attached buffer.old journal part.now (is_some counted) }
{
    if !is_fit(buffer.len(), journal) {
        return refused(journal, Refusal::Unfit);
    }
    let Some(tallies) = counted else {
        return refused(journal, Refusal::Malformed);
    };
    let used = journal.used;
    if !has_room(buffer.len(), used, part.len()) {
        return refused(journal, Refusal::NoRoom);
    }
    words::store(buffer, used, part);
    Kept {
        next: Tallied {
            used: used + part.len(),
            tallies: add(journal.tallies, tallies),
        },
        outcome: None,
    }
}

// The bytes of one record, put behind the bytes in use and counted. A refusal changes no byte.
#[tactic(auto, using(crate::proofs::Claims::tally_claims))]
pub fn append(buffer: &mut [u8], journal: Tallied, bytes: &[u8]) -> Kept
    ensures result_after { leaves buffer.new result ≡ append_of buffer.old journal bytes.now }
    ensures claims { TallyClaims }
{
    attach(buffer, journal, bytes, weigh_one(bytes))
}

// A whole journal, put behind the bytes in use; nothing of what is in use is counted anew. A refusal changes no byte.
#[tactic(auto, using(crate::proofs::Claims::tally_claims, crate::proofs::Joining::join_claims))]
pub fn join(buffer: &mut [u8], journal: Tallied, part: &[u8]) -> Kept
    ensures result_after { leaves buffer.new result ≡ join_of buffer.old journal part.now }
    ensures claims { TallyClaims × JoinClaims }
{
    attach(buffer, journal, part, recount(part))
}
