// configure-kernel-dump on partition memory, which is only read.
ghost use Rattle.std.specs.Prelude.{◌≡◌};
ghost use Rattle.dump.specs.Registration.{registration_after};
ghost use Rattle.calls.specs.ConfigureDump.{verdict_status, dump_status};

use calls::Status;
use dump::{Refusal, Registration};

// What a command gives: its status, and the registration afterwards.
#[derive(Clone, Copy)]
pub struct Configured {
    pub status: Status,
    pub registration: Registration,
}

// The status that a verdict gives.
fn status_of(verdict: Result<(), Refusal>) -> Status
    ensures { result ≡ verdict_status verdict }
{
    match verdict {
        Ok(()) => Status::Done,
        Err(refusal) => Status::from(refusal),
    }
}

// The call: the registration is the one thing that it changes.
pub fn configure_kernel_dump(
    memory: &[u8],
    registration: Registration,
    command: u32,
    address: u32,
    len: u32,
) -> Configured
    ensures { (result.status ≡ dump_status memory.now command address len registration) ×
        (result.registration ≡ registration_after memory.now command address len registration) }
{
    let configured = registration.configure(memory, command, address, len);
    Configured {
        status: status_of(configured.verdict),
        registration: configured.next,
    }
}
