// The scope table.
ghost use Rattle.std.specs.Prelude.{◌≡◌, ◌<◌, ◌≤◌, [], get_or};
ghost use Rattle.journal.specs.Journal.{largest_type};
ghost use Rattle.journal.specs.Scope.{rows, units_of, scope_row};
ghost use Rattle.journal.specs.Claims.Journal.{ScopeRows};

// One row for each scope that has one: negative scopes, scopes 1, 2 and 3. A row has an entry for each number from 0 to 16; node types are
// 1 to 16.
// An entry is the set of opcodes that the scope reports of the type: 1 delete, 2 update, 4 add, added up.
const ROWS: [[u8; 17]; 4] = [
    [0, 0, 0, 0, 0, 2, 0, 0, 2, 2, 7, 7, 7, 7, 7, 0, 0],
    [0, 2, 2, 2, 2, 2, 7, 2, 2, 7, 7, 7, 7, 7, 7, 0, 0],
    [0, 0, 0, 2, 0, 0, 0, 0, 0, 0, 0, 0, 0, 0, 0, 0, 0],
    [0, 0, 0, 0, 0, 0, 0, 0, 0, 0, 0, 0, 0, 0, 0, 2, 2],
];

// The units that a selection asks for: all of them, or the one of this address.
// Kept: no Option, since its names say which units are asked for, where None would say that none are.
#[derive(Clone, Copy)]
pub enum Units {
    All,
    One(u64),
}

// What a scope asks for: its row, the set of opcodes of each node type, and of which units.
#[derive(Clone, Copy)]
pub struct Selection {
    pub sets: [u8; 17],
    pub units: Units,
}

// The units that a scope asks for: in scope 3 the one of this address, in all others all of them.
pub fn units_of(scope: u32, unit: u64) -> Units
    ensures { result ≡ units_of scope unit }
{
    if scope == 3 {
        Units::One(unit)
    } else {
        Units::All
    }
}

fn row_at(number: usize) -> [u8; 17]
    requires { number < 4 }
    ensures { result ≡ get_or rows number [] }
{
    ROWS[number]
}

// The row of a scope; a scope with none is not valid, and reports nothing.
pub fn scope_row(scope: u32) -> Option<[u8; 17]>
    ensures value { result ≡ scope_row scope }
    ensures rows { ScopeRows }
{
    match scope {
        0x8000_0000.. => Some(row_at(0)),
        1 => Some(row_at(1)),
        2 => Some(row_at(2)),
        3 => Some(row_at(3)),
        _ => None,
    }
}
