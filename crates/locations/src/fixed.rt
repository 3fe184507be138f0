// The fixed list: codes one after the other, each with its NUL, numbered from 0.
ghost use Rattle.std.specs.Prelude.{◌≡◌, ◌+◌, ◌-◌, ◌≤◌, length, drop};
ghost use Rattle.locations.specs.Locations.{fixed_part};
ghost use Rattle.locations.specs.Inner.Terms.{nuls, Skips, entry_start};

use crate::listed::Part;

// NULs are counted in blocks of so many bytes.
const BLOCK: usize = 64;

// How many entries are still to be passed from a place on.
#[derive(Clone, Copy)]
struct Place {
    at: usize,
    left: usize,
}

// How many of the bytes of a block are NULs. They are counted in a byte, so that many are looked at at once.
fn nuls_in(block: &[u8]) -> usize
    requires { length block.now ≤ 64 }
    ensures { result ≡ nuls block.now }
{
    let mut n: u8 = 0;
    for byte in block {
        n += u8::from(*byte == 0);
    }
    usize::from(n)
}

// Past whole blocks that end before the entry.
fn skip_blocks(fixed: &[u8], index: usize) -> Place
    ensures { Skips fixed.now index result }
{
    let mut at = 0;
    let mut left = index;
    while at + BLOCK <= fixed.len() {
        let n = nuls_in(&fixed[at..at + BLOCK]);
        if left <= n {
            return Place { at, left };
        }
        left -= n;
        at += BLOCK;
    }
    Place { at, left }
}

// The place behind so many NULs, or the end where there are fewer.
fn entry_start(fixed: &[u8], index: usize) -> usize
    ensures { result ≡ entry_start fixed.now index }
{
    let place = skip_blocks(fixed, index);
    let mut at = place.at;
    let mut left = place.left;
    while 0 < left && at < fixed.len() {
        let nul = at + words::until_nul(&fixed[at..]);
        at = (nul + 1).min(fixed.len());
        left -= 1;
    }
    at
}

// Where the code of an entry stands, with length 0 where it has none, or none with its NUL.
pub fn find_fixed(fixed: &[u8], index: usize) -> Part
    ensures { result ≡ fixed_part fixed.now index }
{
    let start = entry_start(fixed, index);
    let end = start + words::until_nul(&fixed[start..]);
    if end < fixed.len() {
        return Part {
            start,
            length: end - start,
        };
    }
    Part { start, length: 0 }
}
