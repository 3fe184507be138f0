// The registration over the C boundary.
ghost use Rattle.std.specs.Prelude.{◌≡◌};
ghost use Rattle.crossing.specs.Registration.{phase_number, phase_of, flat_of, registration_of, is_registration};
ghost use Rattle.crossing.specs.Claims.Registration.{Faithful, RegistrationExactly};

use dump::{COPY_SIZE, Phase, Registration};

// A registration: its phase (0 none, 1 registered, 2 active), and the copied structure, which is the first `length` bytes of `copy`.
#[repr(C)]
#[derive(Clone, Copy)]
pub struct FlatRegistration {
    pub phase: u32,
    pub length: usize,
    pub copy: [u8; COPY_SIZE],
}

fn phase_of(number: u32) -> Phase
    ensures { result ≡ phase_of number }
{
    match number {
        0 => Phase::Unregistered,
        1 => Phase::Registered,
        _ => Phase::Active,
    }
}

fn phase_number(phase: Phase) -> u32
    ensures { result ≡ phase_number phase }
{
    match phase {
        Phase::Unregistered => 0,
        Phase::Registered => 1,
        Phase::Active => 2,
    }
}

pub fn is_registration(flat: FlatRegistration) -> bool
    ensures { result ≡ is_registration flat }
{
    flat.phase <= 2 && flat.length <= COPY_SIZE
}

pub fn registration_of(flat: FlatRegistration) -> Registration
    ensures value { result ≡ registration_of flat }
    ensures faithful { Faithful }
    ensures exactly { RegistrationExactly }
{
    let copy = flat.copy;
    Registration {
        phase: phase_of(flat.phase),
        len: flat.length,
        copy,
    }
}

pub fn flat_of(registration: Registration) -> FlatRegistration
    ensures { result ≡ flat_of registration }
{
    let copy = registration.copy;
    FlatRegistration {
        phase: phase_number(registration.phase),
        length: registration.len,
        copy,
    }
}
