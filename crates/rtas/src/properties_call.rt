// update-properties on partition memory.
ghost use Rattle.std.specs.Prelude.{◌≡◌};
ghost use Rattle.calls.specs.UpdateProperties.{status_for, properties_status, properties_memory};

use calls::Status;
use node_calls::is_placed;
use properties::Refusal;

// The status of what a call came to.
fn status_for(outcome: Result<bool, Refusal>) -> Status
    ensures { result ≡ status_for outcome }
{
    match outcome {
        Err(Refusal::Malformed) => Status::Malformed,
        Err(Refusal::Carried) => Status::Parameter,
        Ok(false) => Status::Done,
        Ok(true) => Status::Again,
    }
}

// The call: address and scope are tested as update-nodes tests them, and only the work area is handed down to be written.
pub fn update_properties(memory: &mut [u8], j: &[u8], address: u32, scope: u32) -> Status
    ensures value { result ≡ properties_status memory.old address scope j.now }
    ensures memory_after { memory.new ≡ properties_memory memory.old address scope j.now }
{
    let at = address as usize;
    if !is_placed(memory, at) {
        return Status::Parameter;
    }
    if journal::scope_row(scope).is_none() {
        return Status::Parameter;
    }
    let outcome = properties::answer(&mut memory[at..at + node_area::AREA_SIZE], j);
    status_for(outcome)
}
