// What a section copies, and its error flags, by numbers alone.
ghost use Rattle.std.specs.Prelude.{◌≡◌, ◌+◌, ltb};
ghost use Rattle.dumping.specs.Section.{has, error_flags, actual_length};
ghost use Rattle.dumping.specs.Claims.Dumping.{SectionClaims};

// A section of a structure: its request flags and type, where it begins to read, how many bytes it asks for, and where they go.
#[derive(Clone, Copy)]
pub struct Section {
    pub request: u32,
    pub kind: u16,
    pub start: u64,
    pub requested: u64,
    pub destination: u64,
}

// Whether start plus length passes the end. The sum itself may pass 2^64 - 1.
fn is_past(end: u64, start: u64, requested: u64) -> bool
    ensures { result ≡ ltb end (start + requested) }
{
    match start.checked_add(requested) {
        Some(to) => end < to,
        None => true,
    }
}

// The bytes that a source has of those requested.
fn bytes_in(source: u64, section: Section) -> u64
    ensures { result ≡ has source section }
{
    section.requested.min(source.saturating_sub(section.start))
}

// How many bytes are copied, from a source of so many bytes to a memory of so many.
#[tactic(auto, using(crate::proofs::Claims::section_claims), unfolding(crate::specs::Section::actual_length))]
pub fn actual_length(source: u64, memory: u64, section: Section) -> u64
    ensures value { result ≡ actual_length source memory section }
    ensures claims { SectionClaims }
{
    bytes_in(source, section).min(memory.saturating_sub(section.destination))
}

// Each flag where it applies, independently of the others.
pub fn error_flags(source: u64, memory: u64, section: Section) -> u16
    ensures value { result ≡ error_flags source memory section }
    ensures claims { SectionClaims }
{
    let is_small = memory.saturating_sub(section.destination) < bytes_in(source, section);
    16_384 * u16::from(source <= section.start)
        + 8192 * u16::from(is_past(source, section.start, section.requested))
        + 4096 * u16::from(memory <= section.destination)
        + 2048 * u16::from(is_small)
}
