// What a good record adds to the counts of the three opcodes, all in one number.
ghost use Rattle.std.specs.Prelude.{◌≡◌, ◌-◌, ◌^◌, ◌<◌, if◌then◌else◌, slice_index};
ghost use Rattle.journal.specs.Scope.{holds};
ghost use Rattle.journal.specs.Marks.{count_limit};
ghost use Rattle.journal.specs.Terms.{IsKind, opcode_for};
ghost use Rattle.scanning.specs.Inner.Terms.{Weights};

use journal::{COUNT_LIMIT, LARGEST_WEIGHT};

// The set of a node type; none past the row's end.
fn set_of(row: &[u8], node: usize) -> u8
    ensures { result ≡ slice_index row.now node }
{
    row.get(node).copied().unwrap_or(0)
}

// One operation of a kind, where the set holds its opcode: kinds 2 and 4 are updates.
fn weight(set: u8, kind: usize) -> u64
    requires { IsKind kind }
    ensures { result ≡ (if holds set (opcode_for kind) then count_limit ^ (opcode_for kind - 1) else 0) }
{
    if kind == 1 {
        return u64::from(set % 2);
    }
    if kind == 3 {
        return LARGEST_WEIGHT * u64::from(set / 4 % 2);
    }
    COUNT_LIMIT * u64::from(set / 2 % 2)
}

// The weights of a row, by kind and node type.
pub type WeightTable = [u64; 160];

// Fills in the weights of a row: that of a kind and a node type stands at 32 times the kind and the type. What stands before place 32 stays.
pub fn fill_weights(row: &[u8; 17], table: &mut WeightTable)
    ensures { Weights row.now table.new }
{
    for i in 32..160 {
        table[i] = weight(set_of(row, i % 32), i / 32);
    }
}
