// The text of an index work area, put into a buffer.
ghost use Rattle.std.specs.Prelude.{◌+◌, ◌*◌, ◌≤◌, ◌≡◌, length, Ok};
ghost use Rattle.std.proofs.lemmas.List.Edits.{sets};
ghost use Rattle.indices.specs.Reading.{reading, check_of};
ghost use Rattle.indices.specs.Cursor.{entry_in, remaining, start_of};
ghost use Rattle.printing.specs.Put.{Fits, Put};
ghost use Rattle.print_indices.specs.Text.{line, lines, text, printed};
ghost use Rattle.print_indices.specs.Claims.PrintIndices.{PrintIndicesPromise};

use indices::{Cursor, Set};
use printing::Text;

// The longest input whose text is printed.
pub const INPUT_LIMIT: usize = 1_048_580;

fn put_line(input: &[u8], s: Set, out: &mut Text)
    requires length_in_bounds { s.start + s.length ≤ length input.now }
    requires fits { Fits out.old (line (entry_in input.now s)) }
    ensures { Put out.old out.new (line (entry_in input.now s)) }
{
    let from = s.start;
    let to = from + s.length;
    out.push_operand(b"index ", s.index);
    out.push_named(b" ", &input[from..to]);
    out.push(b"\n");
}

// A line for each entry of an area.
fn put_lines(input: &[u8], out: &mut Text)
    requires { Fits out.old (lines (remaining input.now (start_of input.now))) }
    ensures { Put out.old out.new (lines (remaining input.now (start_of input.now))) }
{
    let mut cursor = Cursor::start(input);
    while let Some((s, after)) = cursor.next(input) {
        put_line(input, s, out);
        cursor = after;
    }
}

// An area that has so many entries.
fn put_area(input: &[u8], count: usize, out: &mut Text)
    requires fits { Fits out.old (text input.now) }
    requires counted { check_of (reading input.now) ≡ Ok count }
    ensures { Put out.old out.new (text input.now) }
{
    put_lines(input, out);
    out.push_ended(b"end ", count as u64);
}

// What is printed of an input that is not too long.
fn put_text(input: &[u8], out: &mut Text)
    requires { Fits out.old (text input.now) }
    ensures { Put out.old out.new (text input.now) }
{
    match indices::check_area(input) {
        Err(refused) => out.push_refusal(u64::from(u32::from(refused.refusal)), refused.offset),
        Ok(count) => put_area(input, count, out),
    }
}

// Puts what is printed of an input at the front of a buffer and gives its length; the rest of the buffer stays.
pub fn print_area(input: &[u8], out: &mut [u8; 4_194_400]) -> usize
    ensures value { result ≡ length (printed input.now) }
    ensures out_after { out.new ≡ sets out.old 0 (printed input.now) }
    ensures promise { PrintIndicesPromise }
{
    if INPUT_LIMIT < input.len() {
        return 0;
    }
    let mut text = Text::new(out);
    put_text(input, &mut text);
    text.length
}
