// Walking a well-formed journal, where nothing is judged again.
ghost use Rattle.std.specs.Prelude.{◌≡◌, true, cond, ◌&&◌, eqb, ◌+◌, ◌<◌, ◌≤◌, length, drop};
ghost use Rattle.words.specs.Numbers.{le32};
ghost use Rattle.records.specs.Records.{kind_of, size_of, first_record, records, all_good};
ghost use Rattle.journal.specs.Journal.{good_record, number, entry_of, entries, well_formed};
ghost use Rattle.journal.specs.Scope.{holds, asking};
ghost use Rattle.journal.specs.Reportable.{reports, chosen};
ghost use Rattle.journal.specs.Terms.{opcode_for, node_here};
ghost use Rattle.journal.specs.Marks.{Resumes, Marked};

use crate::judging::read_type;
use crate::marks::Marks;
use crate::operation::Opcode;
use crate::scope::{Selection, Units};
use crate::units::asked_here;

// 1 where a set holds an opcode, else 0.
// Kept: this and the tests below give 1 or 0 and no bool, since the walk and the scan add them up with no branch that depends on a record.
fn in_set(set: u8, opcode: Opcode) -> usize
    ensures { result ≡ cond (holds set (number opcode)) 1 0 }
{
    match opcode {
        Opcode::Delete => (set % 2) as usize,
        Opcode::Update => (set / 2 % 2) as usize,
        Opcode::Add => (set / 4 % 2) as usize,
    }
}

// 1 where a set holds the opcode of a kind, and that is the opcode asked for, else 0.
fn reported(set: u8, opcode: Opcode, kind: usize) -> usize
    ensures { result ≡ cond (eqb (opcode_for kind) (number opcode) && holds set (number opcode)) 1 0 }
{
    let bit = in_set(set, opcode);
    let code = opcode.number();
    if opcode_of(kind) == code { bit } else { 0 }
}

// The opcode of a kind: kinds 2 and 4 are updates.
fn opcode_of(kind: usize) -> usize
    ensures { result ≡ opcode_for kind }
{
    if kind == 4 { 2 } else { kind }
}

// A number of four bytes of a journal, as its records' operands are.
pub fn read_operand(j: &[u8], at: usize) -> u32
    requires { at + 4 ≤ length j.now }
    ensures { result ≡ le32 j.now at }
{
    words::read_le32(j, at)
}

// A record that a walk visits: its size, and 1 where the row reports it under the opcode, else 0.
#[derive(Clone, Copy)]
pub struct Visited {
    pub size: usize,
    pub reported: usize,
}

// 1 where the row reports the good record of a node at a place, of this kind, under the opcode, else 0.
fn reported_here(
    j: &[u8],
    row: &[u8; 17],
    units: Units,
    opcode: Opcode,
    at: usize,
    kind: usize,
) -> usize
    requires { (node_here j.now at ≡ true) × (kind ≡ kind_of (drop at j.now)) }
    ensures { result ≡ cond (reports (asking row.now units) (number opcode) (entry_of (first_record (drop at j.now)))) 1 0 }
{
    let node = read_type(j, at);
    let bit = reported(row[node as usize], opcode, kind);
    let asked = asked_here(j, at, units, kind);
    (bit + asked) / 2
}

// The record at a place from which the records are good. One of a property is not reported.
// Kept: the row and the units apart, so that the writer of operands can name its units and each way to ask for them gets a loop of its own.
pub fn visit(j: &[u8], row: &[u8; 17], units: Units, opcode: Opcode, at: usize) -> Visited
    requires { (at < length j.now) × (all_good good_record (records (drop at j.now)) ≡ true) }
    ensures { (result.size ≡ size_of (drop at j.now)) ×
        (result.reported ≡ cond (reports (asking row.now units) (number opcode) (entry_of (first_record (drop at j.now)))) 1 0) }
{
    let frame = records::read_frame(j, at);
    let size = records::record_size(frame);
    if 4 < frame.kind {
        return Visited { size, reported: 0 };
    }
    let reported = reported_here(j, row, units, opcode, at, frame.kind as usize);
    Visited { size, reported }
}

// A place from which the list of an opcode is what it is of the whole journal from operation number k on, by the marks of a scan.
pub fn find(j: &[u8], selection: &Selection, marks: &Marks, opcode: Opcode, k: usize) -> usize
    requires { (well_formed j.now ≡ true) × Marked selection.now j.now marks.now ×
        (k < length (chosen selection.now (number opcode) (entries j.now))) }
    ensures { Resumes selection.now j.now (number opcode) k result 0 }
{
    let place = marks.seek(opcode, k);
    let mut at = place.at;
    let mut skip = place.skip;
    while 0 < skip {
        let p = visit(j, &selection.sets, selection.units, opcode, at);
        at += p.size;
        skip -= p.reported;
    }
    at
}
