// What a good record of a node adds to the packed counts of each row. The rows stand as numbers, so that no table is read.
ghost use Rattle.std.specs.Prelude.{◌≡◌, ◌-◌, ◌^◌, ◌≤◌};
ghost use Rattle.journal.specs.Journal.{largest_type, IsOpcode};
ghost use Rattle.journal.specs.Marks.{count_limit};
ghost use Rattle.journal.specs.Terms.{IsKind, opcode_for};
ghost use Rattle.stretch.specs.Packed.{weights_for};
ghost use Rattle.stretch.specs.Inner.Terms.{bit_of};

use crate::packed::Packed;

// The sets of a row, in base 8: a digit for each node type, that of type 16 first and that of 0 last.
const NEGATIVE: u64 = 0o00777772200200000;

const FIRST: u64 = 0o00777777227222220;

const SECOND: u64 = 0o00000000000002000;

const THIRD: u64 = 0o22000000000000000;

// The opcode of a kind: kinds 2 and 4 are updates. It is computed with no test, as is what an operation adds: the kinds of records are random.
// Kept: journal has a twin of its own, which takes any number and tests it; to share one, journal would have to ask for a kind from 1 to 4.
fn opcode_of(kind: usize) -> usize
    requires { IsKind kind }
    ensures { result ≡ opcode_for kind }
{
    kind - 2 * (kind / 4)
}

// What one operation of an opcode adds.
fn unit_of(code: usize) -> u64
    requires { IsOpcode code }
    ensures { result ≡ count_limit ^ (code - 1) }
{
    1 << ((21 * (code - 1)) as u32)
}

// Whether a row's number has this opcode for a node type: 1 or 0.
fn bit_of(row: u64, node: usize, code: usize) -> u64
    requires { (node ≤ largest_type) × IsOpcode code }
    ensures { result ≡ bit_of row node code }
{
    let place = 3 * node + (code - 1);
    (row >> (place as u32)) % 2
}

// What a record of a kind and node type adds in every row.
pub fn weights_for(kind: usize, node: usize) -> Packed
    requires { IsKind kind × (node ≤ largest_type) }
    ensures { result ≡ weights_for kind node }
{
    let code = opcode_of(kind);
    let unit = unit_of(code);
    Packed {
        negative: unit * bit_of(NEGATIVE, node, code),
        first: unit * bit_of(FIRST, node, code),
        second: unit * bit_of(SECOND, node, code),
        third: unit * bit_of(THIRD, node, code),
    }
}
