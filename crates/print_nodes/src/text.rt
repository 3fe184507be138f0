// The text of a node work area, put into a buffer.
ghost use Rattle.std.specs.Prelude.{◌≤◌, ◌≡◌, length, Ok};
ghost use Rattle.std.proofs.lemmas.List.Edits.{sets};
ghost use Rattle.node_area.specs.Reading.{reading, check_of};
ghost use Rattle.node_area.specs.Claims.Cursor.{remaining, start_of};
ghost use Rattle.printing.specs.Put.{Fits, Put};
ghost use Rattle.print_nodes.specs.Text.{entry, line, lines, unit_line, text};
ghost use Rattle.print_nodes.specs.Claims.PrintNodes.{PrintNodesPromise};

use journal::Operation;
use node_area::{Cursor, StateVariable};
use printing::Text;

fn put_entry(o: Operation, out: &mut Text)
    requires { Fits out.old (entry o) }
    ensures { Put out.old out.new (entry o) }
{
    match o {
        Operation::Delete(p) => out.push_operand(b"delete ", p),
        Operation::Update(p) => out.push_operand(b"update ", p),
        Operation::Add(p, i) => {
            out.push_operand(b"add ", p);
            out.push_operand(b" ", i);
        }
    }
}

fn put_line(o: Operation, out: &mut Text)
    requires { Fits out.old (line o) }
    ensures { Put out.old out.new (line o) }
{
    put_entry(o, out);
    out.push(b"\n");
}

// A line for each operation of an area.
fn put_lines(input: &[u8], out: &mut Text)
    requires { Fits out.old (lines (remaining input.now start_of)) }
    ensures { Put out.old out.new (lines (remaining input.now start_of)) }
{
    let mut cursor = Cursor::start();
    while let Some((operation, behind)) = cursor.next(input) {
        put_line(operation, out);
        cursor = behind;
    }
}

// The line of the unit, in scope 3.
fn put_unit(scope: u32, input: &[u8], out: &mut Text)
    requires in_bounds { 16 ≤ length input.now }
    requires fits { Fits out.old (unit_line scope input.now) }
    ensures { Put out.old out.new (unit_line scope input.now) }
{
    if scope != 3 {
        return;
    }
    let unit = words::read_be64(input, 4);
    out.push(b"unit ");
    out.push_hex(unit, 16);
    out.push(b"\n");
}

// An area of a scope that has so many operations.
fn put_area(scope: u32, input: &[u8], count: usize, out: &mut Text)
    requires fits { Fits out.old (text scope input.now) }
    requires counted { check_of (reading scope input.now) ≡ Ok count }
    ensures { Put out.old out.new (text scope input.now) }
{
    let state = StateVariable::read(input).0;
    out.push_ended(b"state ", u64::from(state));
    put_unit(scope, input, out);
    put_lines(input, out);
    out.push_ended(b"end ", count as u64);
}

// What is printed of an input, as an area of a scope.
fn put_text(scope: u32, input: &[u8], out: &mut Text)
    requires { Fits out.old (text scope input.now) }
    ensures { Put out.old out.new (text scope input.now) }
{
    match node_area::check_area(scope, input) {
        Err(refused) => out.push_refusal(u64::from(u32::from(refused.refusal)), refused.offset),
        Ok(count) => put_area(scope, input, count, out),
    }
}

// Puts the text of an input, as an area of a scope, at the front of a buffer and gives its length; the rest of the buffer stays.
pub fn print_area(scope: u32, input: &[u8], out: &mut [u8; 32_768]) -> usize
    ensures value { result ≡ length (text scope input.now) }
    ensures out_after { out.new ≡ sets out.old 0 (text scope input.now) }
    ensures promise { PrintNodesPromise }
{
    let mut text = Text::new(out);
    put_text(scope, input, &mut text);
    text.length
}
