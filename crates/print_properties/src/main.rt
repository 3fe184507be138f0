// Prints the property work area on standard input, or why it is refused. If the input cannot be read or the text not be
// written, a line on standard error says so.
#![tactic(auto)]

mod text;

fn main(rt: HostRuntime) {
    let mut input = [0u8; 4097];
    let Some(n) = printing::read_input(rt, b"print_properties", &mut input) else {
        return;
    };
    let mut out = [0u8; 32_768];
    let count = text::print_area(&input[..n], &mut out);
    printing::write_text(rt, b"print_properties", &out[..count]);
}
