// The scope that the program is told, as its first argument.
ghost use Rattle.std.specs.Prelude.{◌≡◌, ◌⊎◌};
ghost use Rattle.print_nodes.specs.Text.{scope_of};

use std::env::Env;
use std::rt::HostRuntime;

// What is assumed if there is no argument: any scope but 3 is read alike.
const ASSUMED: u32 = 1;

// The scope of an argument of so many bytes that begins with this one.
#[tactic(auto, unfolding(crate::specs::Text::scope_of))]
fn scope_of(n: usize, byte: u8) -> u32
    ensures { result ≡ scope_of n byte }
{
    if n == 1 && byte == b'3' { 3 } else { ASSUMED }
}

// One that is not there, or has more than one byte, counts as one of no bytes.
pub fn given(rt: HostRuntime) -> u32
    ensures { (result ≡ 1) ⊎ (result ≡ 3) }
{
    let mut argument = [0u8; 1];
    let n = rt.arg(1, &mut argument).unwrap_or(0);
    scope_of(n, argument[0])
}
