// The reader of node areas: all operations of an area, into a buffer that the caller lends.
ghost use Rattle.std.specs.Prelude.{◌≡◌, [], ◌∷◌, ◌+◌, ◌*◌, ◌<◌, ◌≤◌, min, length, take, drop};
ghost use Rattle.std.proofs.lemmas.List.Edits.{sets};
ghost use Rattle.words.specs.Numbers.{words};
ghost use Rattle.node_area.specs.Reading as nodes_reading;
ghost use Rattle.node_area.specs.Inner.Terms as nodes_reading-inner;
ghost use Rattle.node_area.specs.Claims.Cursor as nodes_cursor;
ghost use Rattle.readers.specs.Readings.{operations_words, node_reading, nodes_out};

use crate::storing::store;

// What a reading of a node area tells: a refusal and its byte offset, or the state and the number of operations.
#[repr(C)]
#[derive(Clone, Copy)]
pub struct NodeReading {
    pub refusal: u32,
    pub state: u32,
    pub offset: usize,
    pub entries: usize,
}

// Operations of one operand word, `n` of them, from a place of the area on.
// Kept: an area is stored operator by operator, since by the cursor, an operation at a step, 1,018 deletes took 3.9 µs and not 1.0.
fn store_singles(area: &[u8], at: usize, code: u32, n: usize, out: &mut [u32], to: usize)
    requires { (at + 4 * n ≤ length area.now) × (to + 3 * n ≤ length out.old) × (0 < n → (1 ≤ code) × (code < 3)) }
    ensures { out.new ≡ sets out.old to
        (operations_words (take n (nodes_reading.operations_at (words (drop at area.now)) code n))) }
{
    for i in 0..n {
        let operand = words::read_be32(area, at + 4 * i);
        store(out, to + 3 * i, &[code, operand, 0]);
    }
}

// Additions, `n` of them, from a place of the area on.
fn store_pairs(area: &[u8], at: usize, n: usize, out: &mut [u32], to: usize)
    requires { (at + 8 * n ≤ length area.now) × (to + 3 * n ≤ length out.old) }
    ensures { out.new ≡ sets out.old to
        (operations_words (take n (nodes_reading.operations_at (words (drop at area.now)) 3 (n + n)))) }
{
    for i in 0..n {
        let first = words::read_be32(area, at + 8 * i);
        let second = words::read_be32(area, at + 8 * i + 4);
        store(out, to + 3 * i, &[3, first, second]);
    }
}

// The operations of an operator, whose operands begin at a place of the area, `most` of them at most; how many they are.
fn store_operands(
    area: &[u8],
    at: usize,
    word: u32,
    out: &mut [u32],
    to: usize,
    most: usize,
) -> usize
    requires { (at ≤ length area.now) × (nodes_reading.count_in word ≤ length (words (drop at area.now))) × (to + 3 * most ≤ length out.old) ×
        (0 < nodes_reading.count_in word → (1 ≤ nodes_reading.opcode_in word) × (nodes_reading.opcode_in word ≤ 3)) }
    ensures value { result ≡ min (nodes_reading-inner.operations_in word) most }
    ensures out_after { out.new ≡ sets out.old to
        (operations_words (take result (nodes_reading.operations_at (words (drop at area.now)) (nodes_reading.opcode_in word)
        (nodes_reading.count_in word)))) }
{
    let code = word / 0x0100_0000;
    let operands = (word % 0x0100_0000) as usize;
    if code == 3 {
        let pairs = (operands / 2).min(most);
        store_pairs(area, at, pairs, out, to);
        return pairs;
    }
    let singles = operands.min(most);
    store_singles(area, at, code, singles, out, to);
    singles
}

// The first operations of a good area, so many of them.
fn store_operations(area: &[u8], out: &mut [u32], count: usize)
    requires { (3 * count ≤ length out.old) × (count ≤ length (nodes_cursor.remaining area.now nodes_cursor.start_of)) ×
        (nodes_reading.verdict 0 16 0 (words (drop 16 area.now)) ≡ nodes_reading.good) }
    ensures { out.new ≡ sets out.old 0
        (operations_words (take count (nodes_cursor.remaining area.now nodes_cursor.start_of))) }
{
    let mut at: usize = 16;
    let mut i: usize = 0;
    while i < count {
        let word = words::read_be32(area, at);
        let stored = store_operands(area, at + 4, word, out, 3 * i, count - i);
        i += stored;
        at = at + 4 + 4 * ((word % 0x0100_0000) as usize);
    }
}

// Reads a node area of a call of a scope: the operations into `out`, three words for each, as many as it has room for.
pub fn read_nodes(area: &[u8], scope: u32, out: &mut [u32]) -> NodeReading
    ensures value { result ≡ node_reading area.now (nodes_reading.reading scope area.now) }
    ensures out_after { out.new ≡ nodes_out out.old (nodes_reading.reading scope area.now) }
{
    match node_area::check_area(scope, area) {
        Err(refused) => NodeReading {
            refusal: u32::from(refused.refusal),
            state: 0,
            offset: refused.offset,
            entries: 0,
        },
        Ok(entries) => {
            store_operations(area, out, entries.min(out.len() / 3));
            NodeReading {
                refusal: 0,
                state: node_area::StateVariable::read(area).0,
                offset: 0,
                entries,
            }
        }
    }
}
