// A recorded buffer beside ours.
ghost use Rattle.std.specs.Prelude.{◌≡◌, length, ◌+◌, ◌<◌};
ghost use Rattle.trace.specs.Playing.{common, compared};

use trace::Report;

// How many bytes two buffers have in common from their start on.
fn common_length(a: &[u8], b: &[u8]) -> usize
    ensures { result ≡ common a.now b.now }
{
    let shorter = a.len().min(b.len());
    for i in 0..shorter {
        if a[i] != b[i] {
            return i;
        }
    }
    shorter
}

// What comes of a call after so many that agreed.
pub fn compare(calls: u32, recorded: &[u8], ours: &[u8]) -> Report
    requires { (calls < 4_294_967_295) × (length recorded.now < 0x1_0000_0000) }
    ensures { result ≡ compared calls recorded.now ours.now }
{
    let same = common_length(recorded, ours);
    if same == recorded.len() && same == ours.len() {
        return Report::Agreed(calls + 1);
    }
    Report::Differs(calls + 1, same as u32)
}
