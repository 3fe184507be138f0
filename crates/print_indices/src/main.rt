// Prints the index work area on standard input, or why it is refused. If the input cannot be read or is too long, or the text
// cannot be written, a line on standard error says so.
#![tactic(auto)]

ghost use Rattle.std.specs.Prelude.{◌≡◌, length};

mod text;

use text::INPUT_LIMIT;

// One byte more than the longest input whose text is printed.
fn input_buffer() -> [u8; 1_048_581]
    ensures { 1_048_581 ≡ length result }
{
    [0; 1_048_581]
}

// Room for the text of every such input.
fn text_buffer() -> [u8; 4_194_400]
    ensures { 4_194_400 ≡ length result }
{
    [0; 4_194_400]
}

fn main(rt: HostRuntime) {
    let mut input = input_buffer();
    let Some(n) = printing::read_input(rt, b"print_indices", &mut input) else {
        return;
    };
    if INPUT_LIMIT < n {
        printing::say(
            rt,
            b"print_indices",
            b": the input has more than 1048580 bytes; give the area alone\n",
        );
        return;
    }
    let mut out = text_buffer();
    let count = text::print_area(&input[..n], &mut out);
    printing::write_text(rt, b"print_indices", &out[..count]);
}
