// The head of a property work area: what is carried from one answered call to the next, and the number of properties behind it.
ghost use Rattle.std.specs.Prelude.{◌≡◌, ◌++◌, ◌≤◌, length};
ghost use Rattle.std.proofs.lemmas.List.Edits.{sets};
ghost use Rattle.words.specs.Numbers.{be_bytes};
ghost use Rattle.property_area.specs.Head.{phandle_in, state_in, is_reserved, carried_head, first_at};

const PHANDLE_AT: usize = 0;

const STATE_AT: usize = 4;

pub const RESERVED_AT: usize = 8;

pub const COUNT_AT: usize = 16;

// Where the first property stands.
pub const FIRST_AT: usize = 20;

pub fn read_phandle(area: &[u8]) -> u32
    requires { first_at ≤ length area.now }
    ensures { result ≡ phandle_in area.now }
{
    words::read_be32(area, PHANDLE_AT)
}

pub fn read_state(area: &[u8]) -> u32
    requires { first_at ≤ length area.now }
    ensures { result ≡ state_in area.now }
{
    words::read_be32(area, STATE_AT)
}

// Whether the reserved bytes are zero.
pub fn is_reserved(area: &[u8]) -> bool
    requires { first_at ≤ length area.now }
    ensures { result ≡ is_reserved area.now }
{
    words::are_zeros(&area[RESERVED_AT..COUNT_AT])
}

// The head with the number of properties; every other byte of the area stays.
pub fn write_head(area: &mut [u8], phandle: u32, state: u32, count: u32)
    requires { first_at ≤ length area.old }
    ensures { area.new ≡ sets area.old 0 (carried_head phandle state ++ be_bytes 4 count) }
{
    words::store_be32(area, PHANDLE_AT, phandle);
    words::store_be32(area, STATE_AT, state);
    words::store_zeros(area, RESERVED_AT, 8);
    words::store_be32(area, COUNT_AT, count);
}
