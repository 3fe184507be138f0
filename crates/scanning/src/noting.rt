// Marks noted on the way of a scan.
ghost use Rattle.std.specs.Prelude.{◌≤◌};
ghost use Rattle.journal.specs.Marks.{mark_limit, Noted};

use journal::{Mark, Marks};

// Marks are noted one for each so many bytes.
pub const MARK_SPAN: usize = 16_384;

// The next mark is noted where one is due: one for each span of the journal, up to the limit.
pub fn note(marks: &mut Marks, p: Mark)
    requires { marks.old.noted ≤ mark_limit }
    ensures { Noted marks.old p marks.new }
{
    if MARK_SPAN * marks.noted <= p.at {
        marks.note(p);
    }
}
