// Reading a property work area: a check of the whole, and a cursor that gives its properties one at a time.
ghost use Rattle.std.specs.Prelude.{◌≡◌, cond, ◌^◌, ◌<◌, length, drop, Some, None, Ok};
ghost use Rattle.words.specs.Nul.{is_ended};
ghost use Rattle.journal.specs.Property.{name_limit};
ghost use Rattle.property_area.specs.Piece.{length_of_value};
ghost use Rattle.property_area.specs.Reading.{refusal_number, name_at, located_at, end_of, judged_at, reading, check_of};
ghost use Rattle.property_area.specs.Cases.Reading.{ReadingCases};
ghost use Rattle.property_area.specs.Claims.PropertyArea.{RoundTrip};
ghost use Rattle.property_area.specs.Claims.Reader.{PropertyReaderExactly};
ghost use Rattle.property_area.specs.Claims.Cursor.{next_of, StepsGive, start_of, PropertiesInOrder};

use crate::head::{COUNT_AT, FIRST_AT, RESERVED_AT, is_reserved};
use journal::NAME_LIMIT;
use node_area::AREA_SIZE;
use words::Refused;

// The descriptor of a deleted property.
pub const DELETION: u32 = 0x8000_0000;

// Why an area is refused.
#[derive(Clone, Copy, PartialEq, Eq)]
pub enum Refusal {
    Size,
    Reserved,
    Name,
    Past,
}

impl From<Refusal> for u32 {
    ghost from_gives = { λ refusal number. number ≡ refusal_number refusal };

    fn from(refusal: Refusal) -> u32 {
        match refusal {
            Refusal::Size => 40,
            Refusal::Reserved => 41,
            Refusal::Name => 42,
            Refusal::Past => 43,
        }
    }
}

// A property by its parts: where its name stands, without its NUL, its descriptor, and where its value stands.
#[derive(Clone, Copy, PartialEq, Eq)]
pub struct Located {
    pub name: usize,
    pub name_length: usize,
    pub descriptor: u32,
    pub value: usize,
    pub value_length: usize,
}

impl Located {
    // Where the property ends, and the next one begins.
    pub fn end(self) -> usize
        requires { end_of self < 2 ^ 64 }
        ensures { result ≡ end_of self }
    {
        self.value + self.value_length
    }
}

// How many bytes of value follow a descriptor.
#[tactic(auto, using(std::proofs::lemmas::Bool::Decides::nat_tests))]
fn value_length(descriptor: u32) -> usize
    ensures { result ≡ length_of_value descriptor }
{
    if descriptor == DELETION {
        return 0;
    }
    if descriptor < DELETION {
        return descriptor as usize;
    }
    0x1_0000_0000 - descriptor as usize
}

// The length of the name at a place, where a name with its NUL stands there.
#[tactic(auto, using(crate::proofs::Judging::names), unfolding(crate::specs::Reading::name_at))]
fn name_length_at(area: &[u8], at: usize) -> Option<usize>
    ensures { result ≡ cond (is_ended name_limit (drop at area.now)) (Some (length (name_at area.now at))) None }
{
    words::ended_length(area.get(at..)?, NAME_LIMIT)
}

// The property at a place.
#[tactic(auto, using(crate::proofs::Judging::judgements))]
fn judge(area: &[u8], at: usize) -> Result<Located, Refusal>
    ensures { result ≡ judged_at area.now at }
{
    let name_length = name_length_at(area, at).ok_or(Refusal::Name)?;
    let place = at + name_length + 1;
    if area.len() - place < 4 {
        return Err(Refusal::Past);
    }
    let descriptor = words::read_be32(area, place);
    let value = place + 4;
    let value_length = value_length(descriptor);
    if area.len() - value < value_length {
        return Err(Refusal::Past);
    }
    Ok(Located {
        name: at,
        name_length,
        descriptor,
        value,
        value_length,
    })
}

// The property at a place that a check passed: only its name's end is searched again.
#[tactic(auto, using(crate::proofs::Judging::names))]
pub fn locate(area: &[u8], at: usize) -> Located
    requires { judged_at area.now at ≡ Ok (located_at area.now at) }
    ensures { result ≡ located_at area.now at }
{
    let name_length = words::until_nul(&area[at..]);
    let place = at + name_length + 1;
    let descriptor = words::read_be32(area, place);
    Located {
        name: at,
        name_length,
        descriptor,
        value: place + 4,
        value_length: value_length(descriptor),
    }
}

// The whole area judged: the number of its properties, or the first refusal.
#[tactic(auto, using(crate::proofs::PropertyLaws::turns), unfolding(crate::specs::Reading::reading))]
pub fn check_area(area: &[u8]) -> Result<usize, Refused<Refusal>>
    ensures value { result ≡ check_of (reading area.now) }
    ensures claims { ReadingCases × RoundTrip }
    ensures exactly { PropertyReaderExactly }
{
    if area.len() != AREA_SIZE {
        return Err(Refused {
            refusal: Refusal::Size,
            offset: 0,
        });
    }
    if !is_reserved(area) {
        return Err(Refused {
            refusal: Refusal::Reserved,
            offset: RESERVED_AT,
        });
    }
    let count = words::read_be32(area, COUNT_AT) as usize;
    let mut at = FIRST_AT;
    for _ in 0..count {
        let found = judge(area, at).map_err(|refusal| Refused {
            refusal,
            offset: at,
        })?;
        at = found.end();
    }
    Ok(count)
}

// Where a reader stands: so many properties are still to come from byte `at` on.
#[derive(Clone, Copy, PartialEq, Eq)]
pub struct Cursor {
    pub at: usize,
    pub left: usize,
}

impl Cursor {
    // Before the first property; an area of under 20 bytes has none.
    pub fn start(area: &[u8]) -> Cursor
        ensures value { result ≡ start_of area.now }
        ensures order { PropertiesInOrder }
    {
        if area.len() < FIRST_AT {
            return Cursor {
                at: FIRST_AT,
                left: 0,
            };
        }
        let left = words::read_be32(area, COUNT_AT) as usize;
        Cursor { at: FIRST_AT, left }
    }

    // The next property of an area, with the cursor behind it. From the start, in an area that a check passes, the steps are its properties
    // in order, then none.
    #[tactic(auto, using(crate::proofs::PropertyLaws::steps), unfolding(crate::specs::Claims::Cursor::next_of))]
    pub fn next(self, area: &[u8]) -> Option<(Located, Cursor)>
        ensures value { result ≡ next_of area.now self }
        ensures steps { StepsGive }
    {
        let left = self.left.checked_sub(1)?;
        let found = judge(area, self.at).ok()?;
        let behind = Cursor {
            at: found.end(),
            left,
        };
        Some((found, behind))
    }
}
