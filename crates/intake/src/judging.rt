// Which lengths and kinds the records of a journal have.
ghost use Rattle.std.specs.Prelude.{◌≡◌};
ghost use Rattle.journal.specs.Inner.Terms.{length_for};
ghost use Rattle.intake.specs.Taking.{good_front};

use records::{Frame, Front};

// The length of a record of kind 1 to 4.
fn node_length(kind: u16) -> u16
    ensures { result ≡ length_for kind }
{
    if kind == 4 {
        return 16;
    }
    if kind == 3 { 12 } else { 8 }
}

// Whether some good record has this length and kind: for kinds 5 and 6 a range of lengths.
fn is_front(length: u16, kind: u16) -> bool
    ensures { result ≡ good_front length kind }
{
    if kind < 1 {
        return false;
    }
    if kind < 5 {
        return length == node_length(kind);
    }
    if length < 8 {
        return false;
    }
    if kind == 5 {
        return length <= 32_806;
    }
    kind == 6 && length <= 38
}

// The front of a journal's record.
pub struct JournalFront;

impl Front for JournalFront {
    ghost good = { good_front };

    fn is_good(frame: Frame) -> bool {
        is_front(frame.length, frame.kind)
    }
}
