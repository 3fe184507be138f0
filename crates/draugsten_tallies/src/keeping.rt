// A journal with its tallies over the C boundary.
ghost use Rattle.std.specs.Prelude.{◌≡◌, ℕ, List, is_some};
ghost use Rattle.std.specs.Option.{unwrap_or};
ghost use Rattle.tallies.specs.Keeping.{nothing, leaves, append_of, join_of};
ghost use Rattle.tallies.specs.Tallies.{no_tallies, recount_for};
ghost use Rattle.draugsten_tallies.specs.Flat.{flat_tallied, tallied_from, flat_tallies, outcome_number, good_number, flat_leaves, flat_left};
ghost use Rattle.draugsten_tallies.specs.Promises.{TalliesPromise, JoinPromise, RecountPromise};

use crate::flat::{FlatTallied, FlatTallies};
use tallies::{Kept, Refusal};

// What an operation answers: 0 or the number of its refusal, and the journal's use and tallies afterwards.
#[repr(C)]
#[derive(Clone, Copy)]
pub struct FlatKept {
    pub number: u32,
    pub journal: FlatTallied,
}

// What a count of a whole journal answers: 0 or 50, malformed, and its tallies.
#[repr(C)]
#[derive(Clone, Copy)]
pub struct FlatRecount {
    pub number: u32,
    pub tallies: FlatTallies,
}

// 0 where nothing was refused, else the number of the refusal.
// Kept: no From, since Refusal is of a crate that knows no numbers of the C interface.
pub fn outcome_number(outcome: Option<Refusal>) -> u32
    ensures { result ≡ outcome_number outcome }
{
    match outcome {
        None => 0,
        Some(Refusal::Malformed) => 50,
        Some(Refusal::NoRoom) => 51,
        Some(Refusal::Unfit) => 52,
    }
}

// The answer of an operation on a journal.
fn flat_kept(kept: Kept) -> FlatKept
    ensures { (buffer : List ℕ) → flat_leaves result.number buffer result.journal ≡ flat_left (leaves buffer kept) }
{
    FlatKept {
        number: outcome_number(kept.outcome),
        journal: kept.next.into(),
    }
}

// The use and the tallies of an empty journal: a journal starts with them, and is cleared by them.
#[unsafe(no_mangle)]
pub extern "C" fn draugsten_tallies_cleared() -> FlatTallied
    ensures value { result ≡ flat_tallied nothing }
    ensures promise { TalliesPromise }
{
    tallies::cleared().into()
}

// The bytes of one record, put behind the bytes in use of the journal's buffer and counted.
#[unsafe(no_mangle)]
pub extern "C" fn draugsten_tallies_append(
    buffer: &mut [u8],
    journal: FlatTallied,
    bytes: &[u8],
) -> FlatKept
    ensures journal_after { flat_leaves result.number buffer.new result.journal ≡ flat_left
        (append_of buffer.old (tallied_from journal) bytes.now) }
    ensures promise { TalliesPromise }
{
    flat_kept(tallies::append(buffer, journal.into(), bytes))
}

// A whole journal, put behind the bytes in use of the journal's buffer and counted.
#[unsafe(no_mangle)]
pub extern "C" fn draugsten_tallies_join(
    buffer: &mut [u8],
    journal: FlatTallied,
    part: &[u8],
) -> FlatKept
    ensures journal_after { flat_leaves result.number buffer.new result.journal ≡ flat_left
        (join_of buffer.old (tallied_from journal) part.now) }
    ensures promise { JoinPromise }
{
    flat_kept(tallies::join(buffer, journal.into(), part))
}

// The tallies of a journal, counted anew.
#[tactic(auto, using(crate::proofs::Promises::recount_promise))]
#[unsafe(no_mangle)]
pub extern "C" fn draugsten_tallies_recount(journal: &[u8]) -> FlatRecount
    ensures number_value { (result.number ≡ good_number (is_some (recount_for journal.now))) ×
        (result.tallies ≡ flat_tallies (unwrap_or (recount_for journal.now) no_tallies)) }
    ensures promise { RecountPromise }
{
    match tallies::recount(journal) {
        Some(tallies) => FlatRecount {
            number: 0,
            tallies: tallies.into(),
        },
        None => FlatRecount {
            number: 50,
            tallies: tallies::cleared().tallies.into(),
        },
    }
}
