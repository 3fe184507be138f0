// Reading an index work area: a check of the whole, and a cursor that gives its entries one at a time.
ghost use Rattle.std.specs.Prelude.{◌≡◌, ◌+◌, ◌-◌, ◌<◌, ◌≤◌, length};
ghost use Rattle.std.proofs.Math.Seq.{slice};
ghost use Rattle.words.specs.Numbers.{zeros};
ghost use Rattle.indices.specs.Reading.{refusal_number, length_at, good_length, good_field, fault_at, reading, check_of};
ghost use Rattle.indices.specs.Cursor.{next_of, start_of};
ghost use Rattle.indices.specs.Claims.Cursor.{StepsGive, EntriesInOrder};
ghost use Rattle.indices.specs.Claims.Indices.{ReadingCases, AreaClaims};
ghost use Rattle.indices.specs.Claims.Reader.{IndexReaderExactly};

use inventory::CODE_LIMIT;
use words::Refused;

// A quarter of the most bytes of a code with its NULs.
const QUARTERS: u32 = CODE_LIMIT as u32 / 4 + 1;

// Why an area is refused.
#[derive(Clone, Copy, PartialEq, Eq)]
pub enum Refusal {
    Short,
    Past,
    Length,
    Code,
}

// The number of a refusal.
impl From<Refusal> for u32 {
    ghost from_gives = { λ r n. n ≡ refusal_number r };

    fn from(refusal: Refusal) -> u32 {
        match refusal {
            Refusal::Short => 30,
            Refusal::Past => 31,
            Refusal::Length => 32,
            Refusal::Code => 33,
        }
    }
}

// Turned right by two bits, a multiple of 4 is its quarter, and any other number exceeds every limit: one comparison tells both.
fn is_length(n: u32) -> bool
    ensures { result ≡ good_length n }
{
    let turned = n / 4 + n % 4 * 0x4000_0000;
    matches!(turned, 1..=QUARTERS)
}

// Whether one to four bytes are all zero. Kept: no loop, nor `iter().all`, which take up to twice as long for so few. Where there are fewer
// than four, the last one is looked at again.
fn are_nuls(bytes: &[u8]) -> bool
    requires { (1 ≤ length bytes.now) × (length bytes.now ≤ 4) }
    ensures { result ≡ zeros bytes.now }
{
    let last = bytes.len() - 1;
    if bytes[0] != 0 {
        return false;
    }
    if bytes[last.min(1)] != 0 {
        return false;
    }
    if bytes[last.min(2)] != 0 {
        return false;
    }
    bytes[last.min(3)] == 0
}

// Whether a field is a non-empty code, one to four NULs and nothing else.
#[tactic(auto, using(crate::proofs::IndexLaws::field_laws), unfolding(crate::specs::Reading::good_field))]
fn is_field(field: &[u8]) -> bool
    ensures { result ≡ good_field field.now }
{
    let before = words::until_nul(field);
    let nuls = &field[before..];
    before != 0 && matches!(nuls.len(), 1..=4) && are_nuls(nuls)
}

// The first fault of a set whose index and length `n` are inside the area.
pub fn fault_of(area: &[u8], at: usize, n: u32) -> Result<(), Refusal>
    requires { (8 ≤ length area.now - at) × (n ≡ length_at area.now at) }
    ensures { result ≡ fault_at area.now at }
{
    if !is_length(n) {
        return Err(Refusal::Length);
    }
    if area.len() - at < 8 + n as usize {
        return Err(Refusal::Past);
    }
    if !is_field(&area[at + 8..at + 8 + n as usize]) {
        return Err(Refusal::Code);
    }
    Ok(())
}

// The whole area judged: the number of its entries, or the first refusal with its byte offset. Each length is read once.
pub fn check_area(area: &[u8]) -> Result<usize, Refused<Refusal>>
    ensures value { result ≡ check_of (reading area.now) }
    ensures claims { ReadingCases × AreaClaims }
    ensures exactly { IndexReaderExactly }
{
    if area.len() < 4 {
        return Err(Refused {
            refusal: Refusal::Short,
            offset: 0,
        });
    }
    let count = words::read_be32(area, 0) as usize;
    let mut at = 4;
    for passed in 0..count {
        if area.len() - at < 8 {
            return Err(Refused {
                refusal: Refusal::Past,
                offset: at,
            });
        }
        let n = words::read_be32(area, at + 4);
        match fault_of(area, at, n) {
            Ok(()) => at = at + 8 + n as usize,
            Err(refusal) => {
                return Err(Refused {
                    refusal,
                    offset: at,
                });
            }
        }
    }
    Ok(count)
}

// Where a reader stands: so many sets are still to come from byte `at` on.
#[derive(Clone, Copy)]
pub struct Cursor {
    pub at: usize,
    pub left: usize,
}

// A set: its index, and where its code stands in the area, without its NULs.
#[derive(Clone, Copy)]
pub struct Set {
    pub index: u32,
    pub start: usize,
    pub length: usize,
}

impl Cursor {
    // Before the first set; an area of under 4 bytes has none.
    pub fn start(area: &[u8]) -> Cursor
        ensures value { result ≡ start_of area.now }
        ensures order { EntriesInOrder }
    {
        if area.len() < 4 {
            return Cursor { at: 4, left: 0 };
        }
        let left = words::read_be32(area, 0) as usize;
        Cursor { at: 4, left }
    }

    // The next entry of an area with the cursor behind it. From the start, in an area that a check passes, the steps are its entries in
    // order, then the end.
    pub fn next(self, area: &[u8]) -> Option<(Set, Cursor)>
        ensures value { result ≡ next_of area.now self }
        ensures steps { StepsGive }
    {
        if self.left == 0 {
            return None;
        }
        let at = self.at;
        let rest = area.len().saturating_sub(at);
        if rest < 8 {
            return None;
        }
        let n = words::read_be32(area, at + 4) as usize;
        let start = at + 8;
        let set = Set {
            index: words::read_be32(area, at),
            start,
            length: words::until_nul(&area[start..start + n.min(rest - 8)]),
        };
        let behind = Cursor {
            at: at + (8 + n),
            left: self.left - 1,
        };
        Some((set, behind))
    }
}
