// The registration of a kernel dump: a phase, and beside it the copy of the structure.
ghost use Rattle.std.specs.Prelude.{◌≡◌, [], ◌≤◌, length, Ok, Err};
ghost use Rattle.dump.specs.Registration.{copy_size, acceptable, padded, no_registration, configured};

use crate::structure::{HEADER_SIZE, is_structure};

// The bytes of a copy.
pub const COPY_SIZE: usize = 512;

#[derive(Clone, Copy, PartialEq, Eq)]
pub enum Phase {
    Unregistered,
    Registered,
    Active,
}

// The structure's copy is the first `len` bytes of `copy`.
#[derive(Clone, Copy)]
pub struct Registration {
    pub phase: Phase,
    pub len: usize,
    pub copy: [u8; COPY_SIZE],
}

// Why a command is refused. The registration then stays as it was.
#[derive(Clone, Copy, PartialEq, Eq)]
pub enum Refusal {
    Parameter,
    AlreadyRegistered,
    DumpActive,
}

// What a command hands back: the next registration, and whether it was refused.
#[derive(Clone, Copy)]
pub struct Configured {
    pub next: Registration,
    pub verdict: Result<(), Refusal>,
}

// The registration that a partition starts with.
pub fn no_registration() -> Registration
    ensures { result ≡ no_registration }
{
    Registration {
        phase: Phase::Unregistered,
        len: 0,
        copy: [0; COPY_SIZE],
    }
}

// The next registration of a command that is done.
fn done(next: Registration) -> Configured
    ensures { result ≡ record { next = next; verdict = Ok tt } }
{
    Configured {
        next,
        verdict: Ok(()),
    }
}

// The bytes of a structure, and zero bytes behind them.
fn copied(s: &[u8]) -> [u8; COPY_SIZE]
    requires { length s.now ≤ copy_size }
    ensures { result ≡ padded s.now }
{
    let mut copy = [0u8; COPY_SIZE];
    words::store(&mut copy, 0, s);
    copy
}

// Whether a good structure of this length stands at an address of memory.
#[tactic(auto, unfolding(crate::specs::Registration::acceptable))]
fn is_acceptable(memory: &[u8], address: u32, len: u32) -> bool
    ensures { result ≡ acceptable memory.now address len }
{
    let at = address as usize;
    let n = len as usize;
    HEADER_SIZE <= n
        && n <= COPY_SIZE
        && at + n <= memory.len()
        && is_structure(&memory[at..at + n])
}

impl Registration {
    // Command 1.
    #[tactic(auto, unfolding(crate::specs::Registration::verdict_of, crate::specs::Registration::registration_after))]
    pub fn register(self, memory: &[u8], address: u32, len: u32) -> Configured
        ensures { result ≡ configured memory.now 1 address len self }
    {
        let before = self.phase;
        match before {
            Phase::Active => self.refused(Refusal::DumpActive),
            Phase::Registered => self.refused(Refusal::AlreadyRegistered),
            Phase::Unregistered => {
                if !is_acceptable(memory, address, len) {
                    return self.refused(Refusal::Parameter);
                }
                let at = address as usize;
                let n = len as usize;
                done(Registration {
                    phase: Phase::Registered,
                    len: n,
                    copy: copied(&memory[at..at + n]),
                })
            }
        }
    }

    // Command 2.
    #[tactic(auto, unfolding(crate::specs::Registration::verdict_of, crate::specs::Registration::registration_after))]
    pub fn unregister(self) -> Configured
        ensures { result ≡ configured [] 2 0 0 self }
    {
        match self.phase {
            Phase::Active => self.refused(Refusal::DumpActive),
            Phase::Registered => done(no_registration()),
            Phase::Unregistered => self.refused(Refusal::Parameter),
        }
    }

    // Command 3.
    #[tactic(auto, unfolding(crate::specs::Registration::verdict_of, crate::specs::Registration::registration_after))]
    pub fn complete(self) -> Configured
        ensures { result ≡ configured [] 3 0 0 self }
    {
        match self.phase {
            Phase::Active => done(no_registration()),
            Phase::Registered | Phase::Unregistered => self.refused(Refusal::Parameter),
        }
    }

    // What came, handed back as it is.
    fn refused(self, refusal: Refusal) -> Configured
        ensures { result ≡ record { next = self; verdict = Err refusal } }
    {
        Configured {
            next: self,
            verdict: Err(refusal),
        }
    }

    // A command by its number.
    #[tactic(auto, unfolding(crate::specs::Registration::verdict_of, crate::specs::Registration::registration_after))]
    pub fn configure(self, memory: &[u8], command: u32, address: u32, len: u32) -> Configured
        ensures { result ≡ configured memory.now command address len self }
    {
        match command {
            1 => self.register(memory, address, len),
            2 => self.unregister(),
            3 => self.complete(),
            _ => self.refused(Refusal::Parameter),
        }
    }
}
