// Storing a number at a place of a slice.
ghost use Rattle.std.specs.Prelude.{◌≡◌, ◌+◌, ◌≤◌, length, replicate};
ghost use Rattle.std.proofs.lemmas.List.Edits.{sets};
ghost use Rattle.words.specs.Numbers.{be_bytes};

// The number's two bytes from a place on; every other byte of the slice stays.
pub fn store_be16(s: &mut [u8], at: usize, v: u16)
    requires { at + 2 ≤ length s.old }
    ensures { s.new ≡ sets s.old at (be_bytes 2 v) }
{
    store(s, at, &u16::to_be_bytes(v));
}

// The word's four bytes from a place on; every other byte of the slice stays.
pub fn store_be32(s: &mut [u8], at: usize, v: u32)
    requires { at + 4 ≤ length s.old }
    ensures { s.new ≡ sets s.old at (be_bytes 4 v) }
{
    store(s, at, &u32::to_be_bytes(v));
}

// The number's eight bytes from a place on; every other byte of the slice stays.
pub fn store_be64(s: &mut [u8], at: usize, v: u64)
    requires { at + 8 ≤ length s.old }
    ensures { s.new ≡ sets s.old at (be_bytes 8 v) }
{
    store(s, at, &u64::to_be_bytes(v));
}

// Bytes from a place on; every other byte of the slice stays.
pub fn store(s: &mut [u8], at: usize, bytes: &[u8])
    requires { at + length bytes.now ≤ length s.old }
    ensures { s.new ≡ sets s.old at bytes.now }
{
    for i in 0..bytes.len() {
        s[at + i] = bytes[i];
    }
}

// So many zero bytes from a place on; every other byte of the slice stays.
pub fn store_zeros(s: &mut [u8], at: usize, n: usize)
    requires { at + n ≤ length s.old }
    ensures { s.new ≡ sets s.old at (replicate n 0) }
{
    s[at..at + n].fill(0);
}
