// Prints the node work area on standard input, or why it is refused; with the argument 3 as an area of scope 3. If the input
// cannot be read or the text not be written, a line on standard error says so.
#![tactic(auto)]

mod scope;
mod text;

fn main(rt: HostRuntime) {
    let scope = scope::given(rt);
    let mut input = [0u8; 4097];
    let Some(n) = printing::read_input(rt, b"print_nodes", &mut input) else {
        return;
    };
    let mut out = [0u8; 32_768];
    let count = text::print_area(scope, &input[..n], &mut out);
    printing::write_text(rt, b"print_nodes", &out[..count]);
}
