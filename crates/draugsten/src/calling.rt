// The call and the registration over the C boundary.
ghost use Rattle.std.specs.Prelude.{◌≡◌};
ghost use Rattle.dump.specs.Registration.{no_registration};
ghost use Rattle.crossing.specs.Registration.{flat_of};
ghost use Rattle.draugsten.specs.Registration.{flat_found, flat_leaves, flat_call_of};
ghost use Rattle.draugsten.specs.Promises.{CallPromise, NoRegistrationPromise};

use crossing::{FlatReading, FlatRegistration};
use inventory::Edition;

// What a call answers: its number, and the registration and the reading record afterwards.
#[repr(C)]
#[derive(Clone, Copy)]
pub struct FlatAnswer {
    pub number: u32,
    pub registration: FlatRegistration,
    pub reading: FlatReading,
}

// The registration that a partition starts with.
#[unsafe(no_mangle)]
pub extern "C" fn draugsten_no_registration() -> FlatRegistration
    ensures value { result ≡ flat_of no_registration }
    ensures promise { NoRegistrationPromise }
{
    crossing::flat_of(dump::no_registration())
}

// One call through the argument buffer. What is no registration gives 13, and nothing changes; otherwise what is handed back is one.
#[unsafe(no_mangle)]
pub extern "C" fn draugsten_call(
    args: &mut [u8],
    memory: &mut [u8],
    journal: &[u8],
    inventory: &[u8],
    edition: u32,
    registration: FlatRegistration,
    reading: FlatReading,
) -> FlatAnswer
    ensures reading_after { flat_leaves result.number args.new memory.new result.registration result.reading ≡ flat_call_of
        (flat_found args.old memory.old journal.now inventory.now edition registration reading) }
    ensures promise { CallPromise }
{
    if !crossing::is_registration(registration) {
        return FlatAnswer {
            number: 13,
            registration,
            reading,
        };
    }
    let stepped = rtas::call_step(
        args,
        memory,
        journal,
        inventory,
        Edition(edition),
        crossing::registration_of(registration),
        crossing::reading_of(reading),
    );
    FlatAnswer {
        number: u32::from(stepped.answer.number),
        registration: crossing::flat_of(stepped.answer.registration),
        reading: crossing::flat_reading_of(stepped.reading),
    }
}
