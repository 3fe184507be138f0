// The front of a record, four bytes that tell its length and its kind: what is due behind them, by a rule for both.
ghost use Rattle.std.specs.Prelude.{◌≡◌, ℕ, Bool, List, Some, None, cond, ◌+◌, ◌≤◌, ◌++◌, length, take, drop};
ghost use Rattle.records.specs.Cutting.{due, ripe};
ghost use Rattle.records.specs.Inner.Filling.{Filled};

use crate::filling::fill;
use crate::framing::{Frame, read_frame};

// Which lengths and kinds the good records of a stream have.
pub trait Front {
    ghost good: { ℕ → ℕ → Bool };

    fn is_good(frame: Frame) -> bool
        ensures { result ≡ good frame.length frame.kind };
}

// How many bytes are looked at together from a place on: the whole record where its front is good, else the front.
fn due_at<R: Front>(bytes: &[u8], at: usize) -> usize
    requires { at + 4 ≤ length bytes.now }
    ensures { result ≡ due R.good (drop at bytes.now) }
{
    let frame = read_frame(bytes, at);
    if R::is_good(frame) {
        return 4 + (frame.length as usize).saturating_sub(2);
    }
    4
}

// How many bytes are due at a place, where all of them are there.
pub fn ripe_at<R: Front>(bytes: &[u8], at: usize) -> Option<usize>
    requires { at ≤ length bytes.now }
    ensures { result ≡ cond (ripe R.good (drop at bytes.now)) (Some (due R.good (drop at bytes.now))) None }
{
    if bytes.len() - at < 4 {
        return None;
    }
    let n = due_at::<R>(bytes, at);
    if bytes.len() - at < n {
        return None;
    }
    Some(n)
}

// Bytes of a burst go behind the held ones of a record, in a buffer with room for any: first its front, which tells how many are due, then those.
// Gives how many went.
pub fn gather<R: Front>(buffer: &mut [u8], held: usize, bytes: &[u8]) -> usize
    requires { (held ≤ length buffer.old) × ((r : List ℕ) → due R.good r ≤ length buffer.old) }
    ensures { Filled buffer.old held bytes.now 0 (due R.good (take held buffer.old ++ bytes.now)) buffer.new result }
{
    let front = fill(buffer, held, bytes, 0, 4);
    let four = held + front;
    if four < 4 {
        return front;
    }
    let n = due_at::<R>(buffer, 0);
    let more = fill(buffer, four, bytes, front, n);
    front + more
}
