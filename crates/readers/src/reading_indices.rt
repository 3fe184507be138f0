// The reader of index areas: all entries of an area, into a buffer that the caller lends.
ghost use Rattle.std.specs.Prelude.{◌≡◌, Ok, [], ◌∷◌, ◌+◌, ◌*◌, ◌≤◌, length};
ghost use Rattle.std.proofs.lemmas.List.Edits.{sets};
ghost use Rattle.words.specs.Nul.{until_nul};
ghost use Rattle.indices.specs.Reading as indices_reading;
ghost use Rattle.readers.specs.Readings.{sets_words, index_reading, indices_out};
ghost use Rattle.readers.specs.Claims.Readings.{WordsTell};

use crate::storing::store;

// What a reading of an index area tells: a refusal and its byte offset, or the number of entries.
#[repr(C)]
#[derive(Clone, Copy)]
pub struct IndexReading {
    pub refusal: u32,
    pub offset: usize,
    pub entries: usize,
}

// A set's three words from a place on; every other word of the buffer stays.
fn store_set(out: &mut [u64], to: usize, set: indices::Set)
    requires { to + 3 ≤ length out.old }
    ensures { out.new ≡ sets out.old to (set.index ∷ set.start ∷ set.length ∷ []) }
{
    let words = [u64::from(set.index), set.start as u64, set.length as u64];
    store(out, to, &words);
}

// The length of the code of a set that a check passed, whose field has n bytes. One to four NULs end the field, so its last four bytes tell.
pub fn code_length(area: &[u8], at: usize, n: usize) -> usize
    requires { (n ≡ indices_reading.length_at area.now at) × (indices_reading.fault_at area.now at ≡ Ok tt) }
    ensures { result ≡ length (until_nul (indices_reading.field_at area.now at)) }
{
    let behind = at + 8 + n;
    if area[behind - 4] == 0 {
        return n - 4;
    }
    if area[behind - 3] == 0 {
        return n - 3;
    }
    if area[behind - 2] == 0 {
        return n - 2;
    }
    n - 1
}

// The first sets of an area, so many of them, which a check passed.
fn store_sets(area: &[u8], out: &mut [u64], count: usize)
    requires { (3 * count ≤ length out.old) × (indices_reading.check_of (indices_reading.read_from count area.now 4) ≡ Ok count) }
    ensures { out.new ≡ sets out.old 0 (sets_words count area.now 4) }
{
    let mut at = 4;
    for i in 0..count {
        let n = words::read_be32(area, at + 4) as usize;
        let set = indices::Set {
            index: words::read_be32(area, at),
            start: at + 8,
            length: code_length(area, at, n),
        };
        store_set(out, 3 * i, set);
        at += 8 + n;
    }
}

// Reads an index area: the entries into `out`, three numbers for each, as many as it has room for.
pub fn read_indices(area: &[u8], out: &mut [u64]) -> IndexReading
    ensures value { result ≡ index_reading (indices_reading.reading area.now) }
    ensures out_after { out.new ≡ indices_out out.old area.now (indices_reading.reading area.now) }
    ensures entries { WordsTell }
{
    match indices::check_area(area) {
        Err(refused) => IndexReading {
            refusal: u32::from(refused.refusal),
            offset: refused.offset,
            entries: 0,
        },
        Ok(entries) => {
            store_sets(area, out, entries.min(out.len() / 3));
            IndexReading {
                refusal: 0,
                offset: 0,
                entries,
            }
        }
    }
}
