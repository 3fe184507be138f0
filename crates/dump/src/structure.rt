// Judging a dump structure.
ghost use Rattle.std.specs.Prelude.{◌≡◌, ◌+◌, ◌*◌, ◌≤◌, length};
ghost use Rattle.dump.specs.Structure.{header_size, section_size, sections, first_section, sections_end, good_header, each_section, good_type};
ghost use Rattle.dump.specs.Structure.{good_section, requested, without_disk, good_path, good_structure};
ghost use Rattle.dump.specs.Claims.Dump.{StructureCases};
ghost use Rattle.dump.specs.Claims.Structure.{StructureExactly};

// The bytes of a header and of a section, and the most sections.
pub const HEADER_SIZE: usize = 40;

pub const SECTION_SIZE: usize = 40;

const SECTION_LIMIT: usize = 10;

// Where the numbers of a header stand that a run needs.
pub const SECTIONS: usize = 4;

pub const STATUS_FLAGS: usize = 6;

pub const FIRST_SECTION: usize = 8;

// Where the numbers of a section stand, from its first byte on, which the request flags begin at.
pub const SECTION_TYPE: usize = 4;

pub const SECTION_ERRORS: usize = 6;

pub const SECTION_SOURCE: usize = 8;

pub const SECTION_REQUESTED: usize = 16;

pub const SECTION_ACTUAL: usize = 24;

pub const SECTION_DESTINATION: usize = 32;

// Whether the header's numbers are good and the sections end within the length.
#[tactic(auto, unfolding(crate::specs::Structure::good_header))]
fn is_header(s: &[u8]) -> bool
    requires { header_size ≤ length s.now }
    ensures { result ≡ good_header s.now }
{
    let sections = words::read_be16(s, SECTIONS) as usize;
    let first = words::read_be32(s, FIRST_SECTION) as usize;
    words::read_be32(s, 0) == 1
        && 1 <= sections
        && sections <= SECTION_LIMIT
        && words::read_be16(s, STATUS_FLAGS) == 0
        && HEADER_SIZE <= first
        && first + SECTION_SIZE * sections <= s.len()
}

#[tactic(auto, unfolding(crate::specs::Structure::good_type))]
fn is_type(kind: u16) -> bool
    ensures { result ≡ good_type kind }
{
    matches!(kind, 1 | 2 | 0x11 | 0x12 | 0x100..)
}

#[tactic(auto, unfolding(crate::specs::Structure::good_section))]
fn is_section(s: &[u8], at: usize) -> bool
    requires { at + section_size ≤ length s.now }
    ensures { result ≡ good_section s.now at }
{
    words::read_be32(s, at) <= 1
        && is_type(words::read_be16(s, at + SECTION_TYPE))
        && words::read_be16(s, at + SECTION_ERRORS) == 0
        && words::read_be64(s, at + SECTION_ACTUAL) == 0
}

// Whether so many sections from an offset on are good.
fn are_sections(s: &[u8], first: usize, count: usize) -> bool
    requires { first + section_size * count ≤ length s.now }
    ensures { result ≡ each_section (good_section s.now) count first }
{
    (0..count).all(|k| is_section(s, first + SECTION_SIZE * k))
}

// Whether so many sections from an offset on have request flag 1.
fn are_requested(s: &[u8], first: usize, count: usize) -> bool
    requires { first + section_size * count ≤ length s.now }
    ensures { result ≡ each_section (requested s.now) count first }
{
    (0..count).all(|k| words::read_be32(s, first + SECTION_SIZE * k) == 1)
}

// Whether a structure with block size 0 has no other sign of a disk.
#[tactic(auto, unfolding(crate::specs::Structure::without_disk))]
fn is_without_disk(s: &[u8], first: usize, count: usize) -> bool
    requires { (header_size ≤ length s.now) × (first ≡ first_section s.now) × (count ≡ sections s.now) × (sections_end s.now ≤ length s.now) }
    ensures { result ≡ without_disk s.now }
{
    words::read_be64(s, 16) == 0
        && words::read_be64(s, 24) == 0
        && words::read_be32(s, 32) == 0
        && are_requested(s, first, count)
}

// Whether the path is good beside sections from one offset up to another.
#[tactic(auto, using(words::proofs::Ends::until_le), unfolding(crate::specs::Structure::good_path))]
fn is_path(s: &[u8], first: usize, end: usize) -> bool
    requires { (header_size ≤ length s.now) × (first ≡ first_section s.now) × (end ≡ sections_end s.now) }
    ensures { result ≡ good_path s.now }
{
    let path = words::read_be32(s, 32) as usize;
    if s.len() <= path {
        return false;
    }
    let nul = path + words::until_nul(&s[path..]);
    HEADER_SIZE <= path && path < nul && nul < s.len() && (nul < first || end <= path)
}

// Whether the bytes are a good dump structure.
#[tactic(auto, using(crate::proofs::StructureClaims::of_structures), unfolding(crate::specs::Structure::good_structure))]
pub fn is_structure(s: &[u8]) -> bool
    ensures value { result ≡ good_structure s.now }
    ensures cases { StructureCases }
    ensures exactly { StructureExactly }
{
    if s.len() < HEADER_SIZE {
        return false;
    }
    if !is_header(s) {
        return false;
    }
    let first = words::read_be32(s, FIRST_SECTION) as usize;
    let sections = words::read_be16(s, SECTIONS) as usize;
    if !are_sections(s, first, sections) {
        return false;
    }
    if words::read_be32(s, 12) == 0 {
        return is_without_disk(s, first, sections);
    }
    is_path(s, first, first + SECTION_SIZE * sections)
}
