// update-nodes on partition memory.
ghost use Rattle.std.specs.Prelude.{◌≡◌, ◌<◌, ◌≤◌, length};
ghost use Rattle.journal.specs.Scope.{units_of, asking};
ghost use Rattle.node_area.specs.Head.{area_size, head_size, unit_in};
ghost use Rattle.nodes.specs.Inner.Source.{Source};
ghost use Rattle.calls.specs.UpdateNodes.{placed, area_status, area_after, nodes_status, nodes_memory};

use calls::Status;
use journal::{Counts, Marks, Selection, Units};
use node_area::StateVariable;
use nodes::Progress;

// Whether an address is a multiple of 4,096 with its area inside memory.
pub fn is_placed(memory: &[u8], address: usize) -> bool
    requires { address < 0x1_0000_0000 }
    ensures { result ≡ placed memory.now address }
{
    address % node_area::AREA_SIZE == 0 && address + node_area::AREA_SIZE <= memory.len()
}

// The units that a call of a scope asks for, by its work area.
fn units_in(area: &[u8], scope: u32) -> Units
    requires { head_size ≤ length area.now }
    ensures { result ≡ units_of scope (unit_in area.now) }
{
    journal::units_of(scope, node_area::read_unit(area))
}

// The answer of a call over a well-formed journal, in its work area.
fn answer_counted(
    area: &mut [u8],
    j: &[u8],
    selection: &Selection,
    scope: u32,
    marks: &Marks,
    counts: Counts,
) -> Status
    requires { (length area.old ≡ area_size) × Source selection.now j.now counts marks.now }
    ensures value { result ≡ area_status scope selection.now j.now area.old }
    ensures area_after { area.new ≡ area_after scope selection.now j.now
        area.old }
{
    if !node_area::is_reserved(scope, area) {
        return Status::Parameter;
    }
    let state = StateVariable::read(area);
    if !state.is_within(counts) {
        return Status::Parameter;
    }
    let progress = Progress { counts, state };
    if nodes::write_answer(area, j, selection, marks, progress) {
        Status::Again
    } else {
        Status::Done
    }
}

// The answer of a call in its work area: the journal is judged first.
fn answer_area(area: &mut [u8], j: &[u8], row: &[u8; 17], scope: u32) -> Status
    requires { length area.old ≡ area_size }
    ensures value { result ≡ area_status scope (asking row.now (units_of scope (unit_in area.old))) j.now area.old }
    ensures area_after { area.new ≡ area_after scope (asking row.now (units_of scope (unit_in area.old))) j.now
        area.old }
{
    let selection = Selection {
        sets: *row,
        units: units_in(area, scope),
    };
    let mut marks = Marks::none();
    let Some(counts) = scanning::scan_noting(j, &selection, &mut marks) else {
        return Status::Malformed;
    };
    answer_counted(area, j, &selection, scope, &marks, counts)
}

// The call: only the work area is handed down to be written.
pub fn update_nodes(memory: &mut [u8], j: &[u8], address: u32, scope: u32) -> Status
    ensures value { result ≡ nodes_status memory.old address scope j.now }
    ensures memory_after { memory.new ≡ nodes_memory memory.old address scope j.now }
{
    let at = address as usize;
    if !is_placed(memory, at) {
        return Status::Parameter;
    }
    let Some(row) = journal::scope_row(scope) else {
        return Status::Parameter;
    };
    answer_area(&mut memory[at..at + node_area::AREA_SIZE], j, &row, scope)
}
