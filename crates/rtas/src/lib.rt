// The calls on the platform's side, reached through one argument buffer: the code that meets the definitions and claims of `calls`.
#![tactic(auto)]

mod calling;
mod dump_call;
mod properties_call;
mod work;

pub use calling::{Answer, Stepped, call, call_step, number_for};
pub use dump_call::{Configured, configure_kernel_dump};
pub use properties_call::update_properties;
pub use work::Work;
