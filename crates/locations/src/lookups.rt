// The lookup over both, by value and as a part of a lent buffer.
ghost use Rattle.std.specs.Prelude.{◌≡◌};
ghost use Rattle.locations.specs.Locations.{fixed_location, location_of, answer_of, code_of, place_of};
ghost use Rattle.locations.specs.Claims.Locations.{LocationClaims};
ghost use Rattle.locations.specs.Inner.Terms.{Narrow, no_bounds, bounds_of};

use crate::fixed::find_fixed;
use crate::listed::{Part, find_listed, part_at};
use indices::Refusal;

// An index that no lookup finds.
const NO_INDEX: u32 = 0xffff_ffff;

// Where the code of an index stands: in the area or in the fixed list; or that it is not found, or why the area is refused.
#[derive(Clone, Copy)]
pub enum Location {
    Refused(Refusal, usize),
    NotFound,
    InArea(Part),
    InFixed(Part),
}

// What the check of a lookup tells.
#[derive(Clone, Copy)]
pub enum Answer {
    Refused(Refusal, usize),
    NotFound,
    Found,
}

// A part by its bounds: of the fixed list or of the area, from one place up to another.
#[derive(Clone, Copy)]
struct Bounds {
    fixed: bool,
    start: usize,
    end: usize,
}

// The empty part at the area's start.
fn no_bounds() -> Bounds
    ensures { result ≡ no_bounds }
{
    Bounds {
        fixed: false,
        start: 0,
        end: 0,
    }
}

// An entry of the fixed list with a code.
fn in_fixed(fixed: &[u8], index: u32) -> Location
    ensures { result ≡ fixed_location fixed.now index }
{
    let part = find_fixed(fixed, index as usize);
    if part.length == 0 {
        return Location::NotFound;
    }
    Location::InFixed(part)
}

// Where the code of an index stands. The whole area is judged first; an index that it lists wins, first match.
pub fn locate(area: &[u8], fixed: &[u8], index: u32) -> Location
    ensures value { result ≡ location_of area.now fixed.now index }
    ensures claims { LocationClaims }
{
    match find_listed(area, index) {
        Err(refused) => Location::Refused(refused.refusal, refused.offset),
        Ok(first) => {
            if index == NO_INDEX {
                return Location::NotFound;
            }
            match first {
                Some(at) => Location::InArea(part_at(area, at)),
                None => in_fixed(fixed, index),
            }
        }
    }
}

// What a lookup of the same inputs comes to: a refusal of the area with its byte offset, not found, or found.
pub fn check(area: &[u8], fixed: &[u8], index: u32) -> Answer
    ensures value { result ≡ answer_of (location_of area.now fixed.now index) }
    ensures claims { LocationClaims }
{
    let location = locate(area, fixed, index);
    match location {
        Location::Refused(r, at) => Answer::Refused(r, at),
        Location::NotFound => Answer::NotFound,
        Location::InArea(part) => Answer::Found,
        Location::InFixed(part) => Answer::Found,
    }
}

fn bounds_of(location: Location) -> Bounds
    requires { Narrow location }
    ensures { result ≡ bounds_of location }
{
    match location {
        Location::Refused(r, at) => no_bounds(),
        Location::NotFound => no_bounds(),
        Location::InArea(part) => Bounds {
            fixed: false,
            start: part.start,
            end: part.start + part.length,
        },
        Location::InFixed(part) => Bounds {
            fixed: true,
            start: part.start,
            end: part.start + part.length,
        },
    }
}

// The code itself, as it stands in whichever buffer had it, without its NULs; empty where the check refuses.
pub fn lookup<'a>(area: &'a [u8], fixed: &'a [u8], index: u32) -> &'a [u8]
    ensures result_value { result.now ≡ code_of area.now fixed.now (location_of area.now fixed.now index) }
    ensures ref_ptr_value { result.ref_ptr ≡ place_of area.entry.ref_ptr fixed.entry.ref_ptr (location_of area.now fixed.now index) }
    ensures claims { LocationClaims }
{
    let bounds = bounds_of(locate(area, fixed, index));
    let in_fixed = bounds.fixed;
    let start = bounds.start;
    let end = bounds.end;
    if in_fixed {
        &fixed[start..end]
    } else {
        &area[start..end]
    }
}
