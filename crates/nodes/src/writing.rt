// Writing the answer of a call into its work area.
ghost use Rattle.std.specs.Prelude.{◌≡◌, true, ◌+◌, ◌*◌, ◌-◌, ◌<◌, ◌≤◌, length};
ghost use Rattle.std.proofs.lemmas.List.Edits.{sets};
ghost use Rattle.journal.specs.Scope.{asking};
ghost use Rattle.words.specs.Numbers.{word_bytes};
ghost use Rattle.journal.specs.Journal.{number, well_formed, entries};
ghost use Rattle.journal.specs.Reportable.{chosen, reportable};
ghost use Rattle.journal.specs.Marks.{Marked};
ghost use Rattle.journal.specs.Inner.Terms.{operands_before};
ghost use Rattle.node_area.specs.Head.{area_size, head_size};
ghost use Rattle.node_area.specs.State.{total, passed_of};
ghost use Rattle.nodes.specs.Run.{area_words, part_words, cut, remains};
ghost use Rattle.nodes.specs.Area.{written};
ghost use Rattle.nodes.specs.Claims.Nodes.{AreaClaims};
ghost use Rattle.nodes.specs.Inner.Source.{Source};
ghost use Rattle.nodes.specs.Inner.Writing.{width, Due, due_words, part_from, Handed, body_from};

use crate::run::longest_run;
use journal::{Counts, Marks, Opcode, Selection, Units};
use node_area::{HEAD_SIZE, StateVariable, write_head};

// The operand words of one operation of an opcode.
fn width_of(opcode: Opcode) -> usize
    ensures { result ≡ width (number opcode) }
{
    match opcode {
        Opcode::Delete | Opcode::Update => 1,
        Opcode::Add => 2,
    }
}

// The operand words that a record ends in, stored; every other byte of the area stays.
fn store_operands(area: &mut [u8], to: usize, j: &[u8], end: usize, opcode: Opcode)
    requires { (to + 4 * width (number opcode) ≤ length area.old) × (8 ≤ end) × (end ≤ length j.now) }
    ensures { area.new ≡ sets area.old to (word_bytes (operands_before j.now (number opcode) end)) }
{
    match opcode {
        Opcode::Add => {
            words::store_be32(area, to, journal::read_operand(j, end - 8));
            words::store_be32(area, to + 4, journal::read_operand(j, end - 4));
        }
        _ => words::store_be32(area, to, journal::read_operand(j, end - 4)),
    }
}

// Operations of one opcode: so many from a number on, of those that the journal has, and where their part of the area begins.
#[derive(Clone, Copy)]
struct Part {
    opcode: Opcode,
    first: usize,
    count: usize,
    to: usize,
}

// The operands of the operations of a part, from a record's place on, stored behind its operator. A record that is passed over is
// stored too, and the next one that counts in its place, so that no branch depends on a record.
fn write_each(area: &mut [u8], j: &[u8], row: &[u8; 17], units: Units, part: Part, from: usize)
    requires { Due (asking row.now units) j.now (number part.opcode) from part.count ×
        (part.to + 4 + 4 * (width (number part.opcode) * part.count) ≤ length area.old) }
    ensures { area.new ≡ sets area.old (part.to + 4)
        (word_bytes (due_words (asking row.now units) j.now (number part.opcode) from part.count)) }
{
    let opcode = part.opcode;
    let step = 4 * width_of(opcode);
    let mut at = from;
    let mut to = part.to + 4;
    let mut due = part.count;
    while 0 < due {
        let p = journal::visit(j, row, units, opcode, at);
        at += p.size;
        store_operands(area, to, j, at, opcode);
        to += step * p.reported;
        due -= p.reported;
    }
}

// The same, with the two ways to ask for units apart: a loop that asks for all of them reads no unit.
// Kept: the two arms name their units, so that the compiler makes two loops; one arm for both would test the units at each record.
fn write_operands(area: &mut [u8], j: &[u8], selection: &Selection, part: Part, from: usize)
    requires { Due selection.now j.now (number part.opcode) from part.count ×
        (part.to + 4 + 4 * (width (number part.opcode) * part.count) ≤ length area.old) }
    ensures { area.new ≡ sets area.old (part.to + 4)
        (word_bytes (due_words selection.now j.now (number part.opcode) from part.count)) }
{
    match selection.units {
        Units::All => write_each(area, j, &selection.sets, Units::All, part, from),
        Units::One(unit) => write_each(area, j, &selection.sets, Units::One(unit), part, from),
    }
}

// One opcode's part of the area: the operator and its operands, or nothing without operations. Gives the place after it.
fn write_part(area: &mut [u8], j: &[u8], selection: &Selection, marks: &Marks, part: Part) -> usize
    requires { (well_formed j.now ≡ true) × Marked selection.now j.now marks.now ×
        (part.count ≤ length (chosen selection.now (number part.opcode)
        (entries j.now)) - part.first) × (part.count ≤ area_words) × (part.to + 4 * part_words (width (number part.opcode) * part.count) ≤ length area.old) }
    ensures value { result ≡ part.to + 4 * part_words (width (number part.opcode) * part.count) }
    ensures area_after { area.new ≡ sets area.old part.to
        (word_bytes (part_from selection.now j.now (number part.opcode) part.first part.count)) }
{
    let opcode = part.opcode;
    let first = part.first;
    let count = part.count;
    let to = part.to;
    if count == 0 {
        return to;
    }
    let from = journal::find(j, selection, marks, opcode, first);
    let operands = width_of(opcode) * count;
    let code = opcode.number();
    words::store_be32(area, to, (code * 0x0100_0000 + operands) as u32);
    write_operands(area, j, selection, part, from);
    to + 4 * (1 + operands)
}

// What each opcode has passed, and how many operations of it the run has.
#[derive(Clone, Copy)]
struct Handing {
    passed: Counts,
    run: Counts,
}

// The three parts of a run and the terminator, behind the head.
fn write_body(area: &mut [u8], j: &[u8], selection: &Selection, marks: &Marks, handing: Handing)
    requires { (length area.old ≡ area_size) × (well_formed j.now ≡ true) × Marked selection.now j.now marks.now × Handed
        selection.now j.now handing.passed handing.run }
    ensures { area.new ≡ sets area.old head_size
        (word_bytes (body_from selection.now j.now handing.passed handing.run)) }
{
    let passed = handing.passed;
    let run = handing.run;
    let deletes = Part {
        opcode: Opcode::Delete,
        first: passed.deletes,
        count: run.deletes,
        to: HEAD_SIZE,
    };
    let second = write_part(area, j, selection, marks, deletes);
    let updates = Part {
        opcode: Opcode::Update,
        first: passed.updates,
        count: run.updates,
        to: second,
    };
    let third = write_part(area, j, selection, marks, updates);
    let additions = Part {
        opcode: Opcode::Add,
        first: passed.additions,
        count: run.additions,
        to: third,
    };
    let end = write_part(area, j, selection, marks, additions);
    words::store_be32(area, end, 0);
}

// How many operations the journal has, and how many of them were reported before.
#[derive(Clone, Copy)]
pub struct Progress {
    pub counts: Counts,
    pub state: StateVariable,
}

// The answer of a call, from a well-formed journal, what its scan told, and a state within it. Says whether operations remain.
pub fn write_answer(
    area: &mut [u8],
    j: &[u8],
    selection: &Selection,
    marks: &Marks,
    progress: Progress,
) -> bool
    requires { (length area.old ≡ area_size) × Source selection.now j.now progress.counts marks.now ×
        (progress.state.0 ≤ total progress.counts) }
    ensures value { result ≡ remains (reportable selection.now j.now) progress.state.0 }
    ensures area_after { area.new ≡ written selection.now.units area.old (reportable selection.now j.now)
        progress.state.0 }
    ensures claims { AreaClaims }
{
    let counts = progress.counts;
    let state = progress.state;
    let run = longest_run(state.remaining(counts));
    let after = state.after(run);
    let more = after.has_more(counts);
    write_head(area, selection.units, after.carried(more));
    let handing = Handing {
        passed: state.passed(counts),
        run,
    };
    write_body(area, j, selection, marks, handing);
    more
}
