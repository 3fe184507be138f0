// Lookups over the C boundary.
ghost use Rattle.std.specs.Prelude.{◌≡◌};
ghost use Rattle.locations.specs.Locations.{location_of};
ghost use Rattle.draugsten_locations.specs.Flat.{flat_location};
ghost use Rattle.draugsten_locations.specs.Promises.{LookupPromise};

use locations::Location;

// What a lookup answers: 0 where the code was found, 34 where it was not, or the number of the area's refusal, 30 to 33; with 0 the buffer, 1 the
// area and 2 the fixed list, and the offset and the length of the code in it; with a refusal its byte offset in the area.
#[repr(C)]
#[derive(Clone, Copy)]
pub struct FlatLocation {
    pub number: u32,
    pub buffer: u32,
    pub offset: usize,
    pub length: usize,
}

impl From<Location> for FlatLocation {
    ghost from_gives = { λ l f. f ≡ flat_location l };

    fn from(location: Location) -> FlatLocation {
        match location {
            Location::Refused(refusal, at) => FlatLocation {
                number: u32::from(refusal),
                buffer: 0,
                offset: at,
                length: 0,
            },
            Location::NotFound => FlatLocation {
                number: 34,
                buffer: 0,
                offset: 0,
                length: 0,
            },
            Location::InArea(part) => FlatLocation {
                number: 0,
                buffer: 1,
                offset: part.start,
                length: part.length,
            },
            Location::InFixed(part) => FlatLocation {
                number: 0,
                buffer: 2,
                offset: part.start,
                length: part.length,
            },
        }
    }
}

// Where the code of an index stands: in an index work area, or in the fixed list of codes.
#[unsafe(no_mangle)]
pub extern "C" fn draugsten_lookup(area: &[u8], fixed: &[u8], index: u32) -> FlatLocation
    ensures value { result ≡ flat_location (location_of area.now fixed.now index) }
    ensures promise { LookupPromise }
{
    FlatLocation::from(locations::locate(area, fixed, index))
}
