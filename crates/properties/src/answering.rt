// A call of update-properties on its work area.
ghost use Rattle.std.specs.Prelude.{◌≡◌, ◌≤◌, length};
ghost use Rattle.records.specs.Records.{size_limit};
ghost use Rattle.node_area.specs.Head.{area_size};
ghost use Rattle.properties.specs.Changes.{changes, due_at, is_due};
ghost use Rattle.properties.specs.Filling.{area_room, fill};
ghost use Rattle.properties.specs.Claims.Changes.{ChangesExactly, FillExactly, SessionExactly};
ghost use Rattle.properties.specs.Inner.Following.{Resumes};
ghost use Rattle.properties.specs.Inner.Writing.{answered};
ghost use Rattle.properties.specs.Answer.{outcome_of, area_after};

use crate::following::{Refusal, follow};
use crate::writing::write_due;

// The answer written from the record at a place on, and whether more is due behind it.
fn write_answer(area: &mut [u8], j: &[u8], phandle: u32, state: u32, place: usize) -> bool
    requires { (length area.old ≡ area_size) × Resumes phandle state j.now place × (length j.now ≤ size_limit) }
    ensures value { result ≡ is_due (fill area_room (due_at state (changes phandle j.now))).due }
    ensures area_after { area.new ≡ answered area.old phandle (fill area_room (due_at state (changes phandle j.now))) }
{
    let handed = write_due(area, j, phandle, state as usize, place);
    let due = handed.due.unwrap_or(0);
    property_area::write_head(area, phandle, due as u32, handed.count as u32);
    handed.due.is_some()
}

// The call on its work area: the journal is judged and the node's session followed in one pass. Tells whether more is due after the answer. A refusal
// leaves the area as it was. Out of line, so that a replay's feed stays within its stack.
#[inline(never)]
pub fn answer(area: &mut [u8], j: &[u8]) -> Result<bool, Refusal>
    requires { length area.old ≡ area_size }
    ensures value { result ≡ outcome_of area.old j.now }
    ensures area_after { area.new ≡ area_after area.old j.now }
    ensures claims { ChangesExactly × FillExactly × SessionExactly }
{
    let phandle = property_area::read_phandle(&*area);
    let state = property_area::read_state(&*area);
    let place = follow(j, phandle, state)?;
    if !property_area::is_reserved(&*area) {
        return Err(Refusal::Carried);
    }
    Ok(write_answer(area, j, phandle, state, place))
}
