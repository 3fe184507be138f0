// The head of a work area, which is carried from one answered call to the next, and the area's size.
ghost use Rattle.std.specs.Prelude.{◌≡◌, ◌≤◌, length};
ghost use Rattle.std.proofs.lemmas.List.Edits.{sets};
ghost use Rattle.node_area.specs.Head.{head_size, address_of, carried_head, unit_in, reserved_from, is_reserved};

use crate::state::StateVariable;
use journal::Units;

pub const AREA_SIZE: usize = 4096;

pub const HEAD_SIZE: usize = 16;

// Where the reserved bytes of a scope's areas begin: behind the state, in scope 3 behind the unit address.
#[tactic(auto, using(std::proofs::lemmas::Bool::Decides::nat_tests))]
pub fn reserved_from(scope: u32) -> usize
    ensures { result ≡ reserved_from scope }
{
    if scope == 3 { 12 } else { 4 }
}

// Whether the reserved bytes are zero.
pub fn is_reserved(scope: u32, area: &[u8]) -> bool
    requires { head_size ≤ length area.now }
    ensures { result ≡ is_reserved scope area.now }
{
    words::are_zeros(&area[reserved_from(scope)..HEAD_SIZE])
}

// The unit address behind the state.
pub fn read_unit(area: &[u8]) -> u64
    requires { head_size ≤ length area.now }
    ensures { result ≡ unit_in area.now }
{
    words::read_be64(area, 4)
}

fn address_of(units: Units) -> u64
    ensures { result ≡ address_of units }
{
    match units {
        Units::All => 0,
        Units::One(unit) => unit,
    }
}

// The state, the address of the unit that is asked for or zeros, and four zero bytes; every other byte of the area stays.
pub fn write_head(area: &mut [u8], units: Units, state: StateVariable)
    requires { head_size ≤ length area.old }
    ensures { area.new ≡ sets area.old 0 (carried_head units state.0) }
{
    let address = address_of(units);
    state.store(area);
    words::store_be32(area, 4, (address / 0x1_0000_0000) as u32);
    words::store_be32(area, 8, (address % 0x1_0000_0000) as u32);
    words::store_be32(area, 12, 0);
}
