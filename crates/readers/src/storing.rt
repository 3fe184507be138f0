// Storing the words of an entry.
ghost use Rattle.std.specs.Prelude.{◌≡◌, ◌+◌, ◌≤◌, length};
ghost use Rattle.std.proofs.lemmas.List.Edits.{sets};

// Words from a place of the buffer on; every other word of it stays.
// Kept: no copy_from_slice, since the archives call no memmove of a length that varies: they copy buffers element by element.
pub fn store<T: Copy>(out: &mut [T], at: usize, words: &[T])
    requires { at + length words.now ≤ length out.old }
    ensures { out.new ≡ sets out.old at words.now }
{
    for i in 0..words.len() {
        out[at + i] = words[i];
    }
}
