// Running a registered dump: its sections in order, and the copy of its structure filled in.
ghost use Rattle.std.specs.Prelude.{◌≡◌, false, ◌||◌, ◌+◌, ◌*◌, ◌≤◌, eqb, length, take, drop, Err};
ghost use Rattle.std.proofs.lemmas.List.Edits.{sets};
ghost use Rattle.dump.specs.Structure.{header_size, section_size, sections, first_section};
ghost use Rattle.dump.specs.declared.registration.Phase.TheVariants.{Registered};
ghost use Rattle.dump.specs.Registration.{copy_size};
ghost use Rattle.dumping.specs.Section.{actual_length};
ghost use Rattle.dumping.specs.Running.{section_at, source_of, errors_of, actual_of, memory_after, section_run, structure_run, good_copy, leaves_run, run_of};
ghost use Rattle.dumping.specs.Claims.Run.{RunClaims};

use crate::section::{Section, actual_length, error_flags};
use dump::{COPY_SIZE, Configured, Phase, Refusal, Registration};

// The status flags of a dump that has run, and the flag of one with a section error.
const RUN: u16 = 32_768;

const SECTION_ERROR: u16 = 8192;

// What a section came to: its error flags, and how many bytes were copied.
#[derive(Clone, Copy)]
struct Copied {
    errors: u16,
    actual: u64,
}

// The section at an offset of a structure.
fn section_at(s: &[u8], at: usize) -> Section
    requires { at + section_size ≤ length s.now }
    ensures { result ≡ section_at s.now at }
{
    Section {
        request: words::read_be32(s, at),
        kind: words::read_be16(s, at + dump::SECTION_TYPE),
        start: words::read_be64(s, at + dump::SECTION_SOURCE),
        requested: words::read_be64(s, at + dump::SECTION_REQUESTED),
        destination: words::read_be64(s, at + dump::SECTION_DESTINATION),
    }
}

// Whether sections of a type read platform memory.
fn is_platform(kind: u16) -> bool
    ensures { result ≡ (eqb kind 1 || eqb kind 2) }
{
    matches!(kind, 1 | 2)
}

// How many bytes the source of a section has.
#[tactic(auto, unfolding(crate::specs::Running::source_of))]
fn source_length(section: Section, memory: &[u8], platform: &[u8]) -> u64
    ensures { result ≡ length (source_of platform.now memory.now section) }
{
    let source = if is_platform(section.kind) {
        platform.len()
    } else {
        memory.len()
    };
    source as u64
}

// So many bytes of a section's source go to its destination.
fn store_section(section: Section, actual: u64, memory: &mut [u8], platform: &[u8])
    requires { actual ≡ actual_length (length (source_of platform.now memory.old section)) (length memory.old) section }
    ensures { memory.new ≡ sets memory.old section.destination
        (take actual (drop section.start (source_of platform.now memory.old section))) }
{
    if actual == 0 {
        return;
    }
    let to = section.destination as usize;
    let from = section.start as usize;
    let size = actual as usize;
    if is_platform(section.kind) {
        words::store(memory, to, &platform[from..from + size]);
    } else {
        moving::move_bytes(memory, to, from, size);
    }
}

// What a section asks for, copied.
fn copy_section(section: Section, memory: &mut [u8], platform: &[u8]) -> Copied
    ensures errors_value { (result.errors ≡ errors_of platform.now memory.old section) ×
        (result.actual ≡ actual_of platform.now memory.old section) }
    ensures memory_after { memory.new ≡ memory_after platform.now memory.old section }
{
    if section.request != 1 {
        return Copied {
            errors: 0,
            actual: 0,
        };
    }
    let source = source_length(section, memory, platform);
    let size = memory.len() as u64;
    let errors = error_flags(source, size, section);
    let actual = actual_length(source, size, section);
    store_section(section, actual, memory, platform);
    Copied { errors, actual }
}

// The section at an offset of the copy, run, and whether it had an error.
fn run_section(copy: &mut [u8], at: usize, memory: &mut [u8], platform: &[u8]) -> bool
    requires { at + section_size ≤ length copy.old }
    ensures { record { memory = memory.new; copy = copy.new; failed = result } ≡ section_run platform.now at
        (record { memory = memory.old; copy = copy.old; failed = false }) }
{
    let section = section_at(copy, at);
    let copied = copy_section(section, memory, platform);
    words::store_be16(copy, at + dump::SECTION_ERRORS, copied.errors);
    words::store_be64(copy, at + dump::SECTION_ACTUAL, copied.actual);
    copied.errors != 0
}

// Every section in order, and the status flags.
fn run_structure(copy: &mut [u8], memory: &mut [u8], platform: &[u8])
    requires { (header_size ≤ length copy.old) × (first_section copy.old + section_size * sections copy.old ≤ length copy.old) }
    ensures { (memory.new ≡ (structure_run platform.now memory.old copy.old).memory) ×
        (copy.new ≡ (structure_run platform.now memory.old copy.old).copy) }
{
    let first = words::read_be32(copy, dump::FIRST_SECTION) as usize;
    let sections = words::read_be16(copy, dump::SECTIONS) as usize;
    let mut failed = false;
    for k in 0..sections {
        failed |= run_section(copy, first + dump::SECTION_SIZE * k, memory, platform);
    }
    words::store_be16(
        copy,
        dump::STATUS_FLAGS,
        RUN + SECTION_ERROR * u16::from(failed),
    );
}

// Whether the first bytes of a copy, so many, are a good structure.
#[tactic(auto, unfolding(crate::specs::Running::good_copy))]
fn is_good_copy(copy: &[u8], len: usize) -> bool
    requires { length copy.now ≡ copy_size }
    ensures { result ≡ good_copy copy.now len }
{
    len <= COPY_SIZE && dump::is_structure(&copy[..len])
}

// What came, handed back as it is.
fn refused(registration: Registration, refusal: Refusal) -> Configured
    ensures { result ≡ record { next = registration; verdict = Err refusal } }
{
    Configured {
        next: registration,
        verdict: Err(refusal),
    }
}

// The run of a registration in phase registered.
fn run_registered(registration: Registration, memory: &mut [u8], platform: &[u8]) -> Configured
    requires { registration.phase ≡ Registered }
    ensures { leaves_run memory.new result ≡ run_of platform.now memory.old registration }
{
    let len = registration.len;
    let mut copy = registration.copy;
    if !is_good_copy(&copy, len) {
        return refused(registration, Refusal::Parameter);
    }
    run_structure(&mut copy, memory, platform);
    Configured {
        next: Registration {
            phase: Phase::Active,
            len,
            copy,
        },
        verdict: Ok(()),
    }
}

// Runs a registered dump: the bytes of its sections go to their destinations in partition memory, the copy tells what came of each, and the
// registration becomes active. A registration that is active, or none, or no good structure, is refused, and nothing changes.
pub fn run_dump(registration: Registration, memory: &mut [u8], platform: &[u8]) -> Configured
    ensures result_after { leaves_run memory.new result ≡ run_of platform.now memory.old registration }
    ensures claims { RunClaims }
{
    match registration.phase {
        Phase::Active => refused(registration, Refusal::DumpActive),
        Phase::Registered => run_registered(registration, memory, platform),
        Phase::Unregistered => refused(registration, Refusal::Parameter),
    }
}
