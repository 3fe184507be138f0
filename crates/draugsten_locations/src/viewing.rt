// Views over the C boundary: the caller keeps the area, and its cursor crosses by value.
ghost use Rattle.std.specs.Prelude.{◌≡◌};
ghost use Rattle.indices.specs.Cursor.{start_of};
ghost use Rattle.locations.specs.Views.{advance_of};
ghost use Rattle.draugsten_locations.specs.Flat.{flat_cursor, cursor_from, flat_step};
ghost use Rattle.draugsten_locations.specs.Promises.{ViewPromise};

use indices::Cursor;
use locations::{Advance, Given};

// Where a view stands: so many sets are still to come from byte `at` on.
#[repr(C)]
#[derive(Clone, Copy)]
pub struct FlatCursor {
    pub at: usize,
    pub left: usize,
}

// What a step answers: 0 with an entry, its index and where its code stands in the area; 35 at the end; or the number of the area's refusal, 30 to
// 33, with its byte offset. And the cursor behind it.
#[repr(C)]
#[derive(Clone, Copy)]
pub struct FlatStep {
    pub number: u32,
    pub index: u32,
    pub offset: usize,
    pub length: usize,
    pub cursor: FlatCursor,
}

impl From<Cursor> for FlatCursor {
    ghost from_gives = { λ c f. f ≡ flat_cursor c };

    fn from(c: Cursor) -> FlatCursor {
        FlatCursor {
            at: c.at,
            left: c.left,
        }
    }
}

impl From<FlatCursor> for Cursor {
    ghost from_gives = { λ f c. c ≡ cursor_from f };

    fn from(f: FlatCursor) -> Cursor {
        Cursor {
            at: f.at,
            left: f.left,
        }
    }
}

impl From<Advance> for FlatStep {
    ghost from_gives = { λ a f. f ≡ flat_step a };

    fn from(next: Advance) -> FlatStep {
        let cursor = FlatCursor::from(next.cursor);
        match next.given {
            Given::Entry(index, part) => FlatStep {
                number: 0,
                index,
                offset: part.start,
                length: part.length,
                cursor,
            },
            Given::End => FlatStep {
                number: 35,
                index: 0,
                offset: 0,
                length: 0,
                cursor,
            },
            Given::Refused(refusal, at) => FlatStep {
                number: u32::from(refusal),
                index: 0,
                offset: at,
                length: 0,
                cursor,
            },
        }
    }
}

// A view from the start of an index work area.
#[unsafe(no_mangle)]
pub extern "C" fn draugsten_view_start(area: &[u8]) -> FlatCursor
    ensures value { result ≡ flat_cursor (start_of area.now) }
    ensures promise { ViewPromise }
{
    FlatCursor::from(Cursor::start(area))
}

// A step of a view, from any cursor.
#[unsafe(no_mangle)]
pub extern "C" fn draugsten_view_step(area: &[u8], cursor: FlatCursor) -> FlatStep
    ensures value { result ≡ flat_step (advance_of area.now (cursor_from cursor)) }
    ensures promise { ViewPromise }
{
    FlatStep::from(locations::advance_at(area, Cursor::from(cursor)))
}
