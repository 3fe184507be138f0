// What the printing programs share: the input, putting a text together in a buffer, and the output.
// Kept: numbers and names are put in by hand and not by `write!`, which std tells of a String alone; there is no heap here.
#![tactic(auto)]

mod channel;
mod names;
mod put;

pub use channel::{read_input, say, write_text};
pub use put::Text;
