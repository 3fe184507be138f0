// Running a registered dump over the C boundary.
ghost use Rattle.std.specs.Prelude.{◌≡◌};
ghost use Rattle.calls.specs.Status.{status_word};
ghost use Rattle.calls.specs.ConfigureDump.{verdict_status};
ghost use Rattle.draugsten_dump.specs.Running.{flat_leaves, flat_run_of};
ghost use Rattle.draugsten_dump.specs.Promises.{RunPromise};

use calls::Status;
use crossing::FlatRegistration;
use dump::Refusal;

// What a run answers: its number, its status, and the registration afterwards.
#[repr(C)]
#[derive(Clone, Copy)]
pub struct FlatRun {
    pub number: u32,
    pub status: u32,
    pub registration: FlatRegistration,
}

// The number of the status that a verdict gives.
fn status_of(verdict: Result<(), Refusal>) -> u32
    ensures { result ≡ status_word (verdict_status verdict) }
{
    match verdict {
        Ok(()) => u32::from(Status::Done),
        Err(refusal) => u32::from(Status::from(refusal)),
    }
}

// Runs a registered dump. What is no registration gives 13, and nothing changes; otherwise what is handed back is one.
#[unsafe(no_mangle)]
pub extern "C" fn draugsten_run_dump(
    registration: FlatRegistration,
    memory: &mut [u8],
    platform: &[u8],
) -> FlatRun
    ensures registration_after { flat_leaves result.number result.status memory.new result.registration ≡ flat_run_of platform.now memory.old
        registration }
    ensures promise { RunPromise }
{
    if !crossing::is_registration(registration) {
        return FlatRun {
            number: 13,
            status: 4294967293,
            registration,
        };
    }
    let ran = dumping::run_dump(crossing::registration_of(registration), memory, platform);
    FlatRun {
        number: 0,
        status: status_of(ran.verdict),
        registration: crossing::flat_of(ran.next),
    }
}
