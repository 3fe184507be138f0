// Judging a record of the inventory.
ghost use Rattle.std.specs.Prelude.{◌≡◌, ◌+◌, ◌≤◌, ◌<◌, length, drop};
ghost use Rattle.inventory.specs.Inventory.{all_non_zero};
ghost use Rattle.inventory.specs.Inner.Judging.{framed_at, good_size};

// The kind of every record.
const ITEM_KIND: u16 = 16;

// The bytes of a record before its code.
pub const HEAD_SIZE: usize = 14;

// The most bytes of a code.
pub const CODE_LIMIT: usize = 1023;

// The sizes of a record with the shortest and the longest code.
const LEAST_SIZE: usize = HEAD_SIZE + 1;

const MOST_SIZE: usize = HEAD_SIZE + CODE_LIMIT;

// Whether no byte is zero. It goes by the least of them and does not stop at a zero, so that many are looked at at once.
fn are_non_zero(s: &[u8]) -> bool
    ensures { result ≡ all_non_zero s.now }
{
    s.iter().fold(u8::MAX, |least, byte| least.min(*byte)) != 0
}

// The same by the first and the last so many bytes, which may overlap.
fn are_both_non_zero(s: &[u8], first: usize, last: usize) -> bool
    requires { (first ≤ length s.now) × (last ≤ length s.now) × (length s.now ≤ first + last) }
    ensures { result ≡ all_non_zero s.now }
{
    are_non_zero(&s[..first]) && are_non_zero(&s[s.len() - last..])
}

// Whether a code has no NUL. A code of four bytes or more is looked at in blocks of one size, of which the last may overlap the one
// before it. The size is a constant for each range of lengths, so that a block is one step.
fn is_code(code: &[u8]) -> bool
    ensures { result ≡ all_non_zero code.now }
{
    match code.len() {
        0..4 => are_non_zero(code),
        4..8 => are_both_non_zero(code, 4, 4),
        8..16 => are_both_non_zero(code, 8, 8),
        16..32 => are_both_non_zero(code, 16, 16),
        length => are_both_non_zero(code, length / 32 * 32, 32),
    }
}

// The size of the record at a place, where a good one stands there.
pub fn record_at(s: &[u8], at: usize) -> Option<usize>
    requires { at < length s.now }
    ensures { result ≡ good_size (drop at s.now) }
{
    let left = s.len() - at;
    if left < LEAST_SIZE {
        return None;
    }
    let frame = records::read_frame(s, at);
    let size = records::record_size(frame);
    if !is_framed(left, size, frame.kind, words::read_le16(s, at + 4)) {
        return None;
    }
    if !is_code(&s[at + HEAD_SIZE..at + size]) {
        return None;
    }
    Some(size)
}

// Whether a record of this size, kind and flag can stand where so many bytes are left.
#[tactic(auto, using(std::proofs::lemmas::Bool::Decides::nat_tests), unfolding(crate::specs::Inventory::code_limit))]
fn is_framed(left: usize, size: usize, kind: u16, flag: u16) -> bool
    ensures { result ≡ framed_at left size kind flag }
{
    size <= left && LEAST_SIZE <= size && size <= MOST_SIZE && kind == ITEM_KIND && flag <= 1
}
