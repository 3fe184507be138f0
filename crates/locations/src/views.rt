// A view of an index work area: it holds the area and a position in it, and goes through the entries. The work is done by a function over a
// plain slice and a cursor by value.
ghost use Rattle.std.specs.Prelude.{◌≡◌, ◌≤◌};
ghost use Rattle.indices.specs.Reading.{fault_at};
ghost use Rattle.indices.specs.Cursor.{start_of};
ghost use Rattle.locations.specs.Inner.Terms.{Sets};
ghost use Rattle.locations.specs.Views.{pass_of, advance_of};
ghost use Rattle.locations.specs.Claims.Locations.{ViewClaims};

use crate::listed::{Part, part_at};
use indices::{Cursor, Refusal};

// What a step gives: an entry, its index and where its code stands in the area; the end; or the refusal of the area with its byte offset.
#[derive(Clone, Copy)]
pub enum Given {
    Entry(u32, Part),
    End,
    Refused(Refusal, usize),
}

// What a step gives, and the cursor behind it. At the end and at a refusal the cursor stays.
#[derive(Clone, Copy)]
pub struct Advance {
    pub given: Given,
    pub cursor: Cursor,
}

// The area, and where the view stands.
#[derive(Clone, Copy)]
pub struct View<'a> {
    pub area: &'a [u8],
    pub cursor: Cursor,
}

// What a step gives, beside the view behind it.
#[derive(Clone, Copy)]
pub struct Stepped<'a> {
    pub given: Given,
    pub view: View<'a>,
}

// The fault of the set at a place, or none. Any place is answered.
fn fault_at(area: &[u8], at: usize) -> Result<(), Refusal>
    ensures { result ≡ fault_at area.now at }
{
    if area.len().saturating_sub(at) < 8 {
        return Err(Refusal::Past);
    }
    indices::fault_of(area, at, words::read_be32(area, at + 4))
}

// The set at a place that is good, and the cursor behind it.
fn pass_set(area: &[u8], cursor: Cursor) -> Advance
    requires { Sets area.now cursor.at × (1 ≤ cursor.left) }
    ensures { result ≡ pass_of area.now cursor }
{
    let at = cursor.at;
    let n = words::read_be32(area, at + 4) as usize;
    Advance {
        given: Given::Entry(words::read_be32(area, at), part_at(area, at)),
        cursor: Cursor {
            at: at + (8 + n),
            left: cursor.left - 1,
        },
    }
}

// A step from any cursor.
pub fn advance_at(area: &[u8], cursor: Cursor) -> Advance
    ensures value { result ≡ advance_of area.now cursor }
    ensures claims { ViewClaims }
{
    if area.len() < 4 {
        return Advance {
            given: Given::Refused(Refusal::Short, 0),
            cursor,
        };
    }
    if cursor.left == 0 {
        return Advance {
            given: Given::End,
            cursor,
        };
    }
    let at = cursor.at;
    match fault_at(area, at) {
        Err(r) => Advance {
            given: Given::Refused(r, at),
            cursor,
        },
        Ok(()) => pass_set(area, cursor),
    }
}

// A view from an area's start.
pub fn view_of<'a>(area: &'a [u8]) -> View<'a>
    ensures area_value { (result.area ≡ area.entry) × (result.cursor ≡ start_of area.now) }
    ensures claims { ViewClaims }
{
    View {
        area,
        cursor: Cursor::start(area),
    }
}

// A step of a view.
pub fn step<'a>(from: View<'a>) -> Stepped<'a>
    ensures area_value { (result.view.area ≡ from.entry.area) × (result.given ≡ (advance_of from.entry.area.now from.entry.cursor).given) ×
        (result.view.cursor ≡ (advance_of from.entry.area.now from.entry.cursor).cursor) }
    ensures claims { ViewClaims }
{
    let next = advance_at(from.area, from.cursor);
    Stepped {
        given: next.given,
        view: View {
            area: from.area,
            cursor: next.cursor,
        },
    }
}
