// What is due of a record that comes in bursts, by the front of a trace's record.
ghost use Rattle.std.specs.Prelude.{◌≡◌, cond, ◌≤◌, ◌++◌, length, take, drop};
ghost use Rattle.records.specs.Cutting.{due, ripe};
ghost use Rattle.records.specs.Inner.Filling.{Filled};
ghost use Rattle.trace.specs.Trace.{good_frame};

use records::{Frame, Front};

// The front of a trace's record.
struct TraceFront;

impl Front for TraceFront {
    ghost good = { good_frame };

    fn is_good(frame: Frame) -> bool {
        playing::is_good_frame(frame.length, frame.kind)
    }
}

// What is due at a place where all of it is there, else 0.
pub fn ripe_at(bytes: &[u8], at: usize) -> usize
    requires { at ≤ length bytes.now }
    ensures { result ≡ cond (ripe good_frame (drop at bytes.now)) (due good_frame (drop at bytes.now)) 0 }
{
    records::ripe_at::<TraceFront>(bytes, at).unwrap_or(0)
}

// Bytes of a burst go behind the held ones of a record: first its front, which tells how many are due, then those. Gives how many went.
pub fn gather(buffer: &mut [u8], held: usize, bytes: &[u8]) -> usize
    requires { (held ≤ length buffer.old) × (4104 ≤ length buffer.old) }
    ensures { Filled buffer.old held bytes.now 0 (due good_frame (take held buffer.old ++ bytes.now))
        buffer.new result }
{
    records::gather::<TraceFront>(buffer, held, bytes)
}
