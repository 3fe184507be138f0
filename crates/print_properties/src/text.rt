// The text of a property work area, put into a buffer.
ghost use Rattle.std.specs.Prelude.{◌≤◌, ◌≡◌, length, Ok};
ghost use Rattle.std.proofs.lemmas.List.Edits.{sets};
ghost use Rattle.property_area.specs.Reading.{reading, check_of, piece_in};
ghost use Rattle.property_area.specs.Claims.Cursor.{remaining, start_of};
ghost use Rattle.printing.specs.Put.{Fits, Put};
ghost use Rattle.print_properties.specs.Text.{value_text, entry, line, lines, phandle_line, text};
ghost use Rattle.print_properties.specs.Inner.Put.{Inside, piece_of};
ghost use Rattle.print_properties.specs.Claims.PrintProperties.{PrintPropertiesPromise};

use printing::Text;
use property_area::{Cursor, DELETION, Located};

// A value's length and its bytes.
fn put_value(value: &[u8], out: &mut Text)
    requires { Fits out.old (value_text value.now) }
    ensures { Put out.old out.new (value_text value.now) }
{
    out.push_number(b" ", value.len() as u64);
    if value.is_empty() {
        return;
    }
    out.push(b" ");
    out.push_value(value);
}

// The property of a descriptor, by its name and its value.
fn put_entry(descriptor: u32, name: &[u8], value: &[u8], out: &mut Text)
    requires { Fits out.old (entry (piece_of descriptor name.now value.now)) }
    ensures { Put out.old out.new (entry (piece_of descriptor name.now value.now)) }
{
    if descriptor == DELETION {
        return out.push_named(b"delete ", name);
    }
    let is_part = DELETION < descriptor;
    if is_part {
        out.push_named(b"part ", name);
        return put_value(value, out);
    }
    out.push_named(b"property ", name);
    put_value(value, out);
}

fn put_line(input: &[u8], l: Located, out: &mut Text)
    requires inside { Inside l (length input.now) }
    requires fits { Fits out.old (line (piece_in input.now l)) }
    ensures { Put out.old out.new (line (piece_in input.now l)) }
{
    let name = l.name;
    let name_end = name + l.name_length;
    let value = l.value;
    let value_end = value + l.value_length;
    put_entry(
        l.descriptor,
        &input[name..name_end],
        &input[value..value_end],
        out,
    );
    out.push(b"\n");
}

// A line for each property of an area.
fn put_lines(input: &[u8], out: &mut Text)
    requires { Fits out.old (lines (remaining input.now (start_of input.now))) }
    ensures { Put out.old out.new (lines (remaining input.now (start_of input.now))) }
{
    let mut cursor = Cursor::start(input);
    while let Some((found, behind)) = cursor.next(input) {
        put_line(input, found, out);
        cursor = behind;
    }
}

// The line of a phandle.
fn put_phandle(phandle: u32, out: &mut Text)
    requires { Fits out.old (phandle_line phandle) }
    ensures { Put out.old out.new (phandle_line phandle) }
{
    out.push_operand(b"phandle ", phandle);
    out.push(b"\n");
}

// An area that has so many properties.
fn put_area(input: &[u8], count: usize, out: &mut Text)
    requires fits { Fits out.old (text input.now) }
    requires counted { check_of (reading input.now) ≡ Ok count }
    ensures { Put out.old out.new (text input.now) }
{
    let phandle = property_area::read_phandle(input);
    let state = property_area::read_state(input);
    put_phandle(phandle, out);
    out.push_ended(b"state ", u64::from(state));
    put_lines(input, out);
    out.push_ended(b"end ", count as u64);
}

// What is printed of an input.
fn put_text(input: &[u8], out: &mut Text)
    requires { Fits out.old (text input.now) }
    ensures { Put out.old out.new (text input.now) }
{
    match property_area::check_area(input) {
        Err(refused) => out.push_refusal(u64::from(u32::from(refused.refusal)), refused.offset),
        Ok(count) => put_area(input, count, out),
    }
}

// Puts the text of an input at the front of a buffer and gives its length; the rest of the buffer stays.
pub fn print_area(input: &[u8], out: &mut [u8; 32_768]) -> usize
    ensures value { result ≡ length (text input.now) }
    ensures out_after { out.new ≡ sets out.old 0 (text input.now) }
    ensures promise { PrintPropertiesPromise }
{
    let mut text = Text::new(out);
    put_text(input, &mut text);
    text.length
}
