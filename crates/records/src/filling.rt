// Bytes of a burst that go into the buffer of held bytes, behind those that it holds.
ghost use Rattle.std.specs.Prelude.{◌≡◌, ◌-◌, ◌≤◌, min, length};
ghost use Rattle.records.specs.Inner.Filling.{Filled};

// How many bytes of a burst go behind the held ones, if these are to be so many.
fn missing(held: usize, upto: usize, left: usize) -> usize
    ensures { result ≡ min (upto - held) left }
{
    upto.saturating_sub(held).min(left)
}

// Bytes of a burst from a place on go behind the held ones until there are so many, or the burst ends. Gives how many went.
pub fn fill(buffer: &mut [u8], held: usize, bytes: &[u8], at: usize, upto: usize) -> usize
    requires { (held ≤ length buffer.old) × (upto ≤ length buffer.old) × (at ≤ length bytes.now) }
    ensures { Filled buffer.old held bytes.now at upto buffer.new result }
{
    let n = missing(held, upto, bytes.len() - at);
    words::store(buffer, held, &bytes[at..at + n]);
    n
}
