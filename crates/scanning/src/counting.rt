// The scan: the whole journal judged and counted in one pass, with marks noted on the way.
ghost use Rattle.std.specs.Prelude.{◌≡◌};
ghost use Rattle.journal.specs.Reportable.{judgement_of};
ghost use Rattle.journal.specs.Marks.{Marked};
ghost use Rattle.journal.specs.Claims.Journal.{JournalClaims};
ghost use Rattle.scanning.specs.Inner.Terms.{unpacked};

use crate::noting::note;
use crate::stride::stride;
use crate::weights::{WeightTable, fill_weights};
use journal::{Counts, Mark, Marks, Opcode, Selection};

// The three counts that were packed in one number.
pub fn counts_of(packed: u64) -> Counts
    ensures { result ≡ unpacked packed }
{
    Counts {
        deletes: journal::count_of(Opcode::Delete, packed),
        updates: journal::count_of(Opcode::Update, packed),
        additions: journal::count_of(Opcode::Add, packed),
    }
}

// The journal judged, and the operations counted that are reported of what the selection asks for, with marks noted into a lent table; nothing where
// the journal is malformed. Which marks were noted is left free; each is true.
pub fn scan_noting(j: &[u8], selection: &Selection, marks: &mut Marks) -> Option<Counts>
    ensures judgement_value { (result ≡ judgement_of selection.now j.now) × Marked selection.now j.now marks.new }
    ensures rules { JournalClaims }
{
    marks.noted = 0;
    if records::SIZE_LIMIT < j.len() {
        return None;
    }
    let mut weights: WeightTable = [0; 160];
    fill_weights(&selection.sets, &mut weights);
    let mut at: usize = 0;
    let mut counts: u64 = 0;
    while at < j.len() {
        let from = Mark { at, counts };
        note(marks, from);
        let p = stride(j, selection, &weights, from)?;
        at = p.at;
        counts = p.counts;
    }
    Some(counts_of(counts))
}

// The same, with a table of its own. Which marks were noted is left free; each is true.
pub fn scan(j: &[u8], selection: &Selection) -> (Option<Counts>, Marks)
    ensures judgement_value { (result.0 ≡ judgement_of selection.now j.now) × Marked selection.now j.now result.1 }
    ensures rules { JournalClaims }
{
    let mut marks = Marks::none();
    let counted = scan_noting(j, selection, &mut marks);
    (counted, marks)
}
