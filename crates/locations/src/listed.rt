// The first set of an index work area that lists an index. The area is judged and searched in one pass.
ghost use Rattle.std.specs.Prelude.{◌≡◌};
ghost use Rattle.locations.specs.Locations.{part_at};
ghost use Rattle.locations.specs.Inner.Terms.{Sets, first_found, listing_of};

use indices::Refusal;
use words::Refused;

// Where a code stands in its buffer, without its NULs.
#[derive(Clone, Copy)]
pub struct Part {
    pub start: usize,
    pub length: usize,
}

// The first of two offsets: one that was found before stays.
fn first_found(found: Option<usize>, at: usize, lists: bool) -> Option<usize>
    ensures { result ≡ first_found found at lists }
{
    match found {
        Some(_) => found,
        None => lists.then_some(at),
    }
}

// The whole area judged, and the index sought on the way: the byte offset of the first set that lists it, if one does.
pub fn find_listed(area: &[u8], index: u32) -> Result<Option<usize>, Refused<Refusal>>
    ensures { result ≡ listing_of area.now index }
{
    if area.len() < 4 {
        return Err(Refused {
            refusal: Refusal::Short,
            offset: 0,
        });
    }
    let count = words::read_be32(area, 0) as usize;
    let mut at = 4;
    let mut found = None;
    for passed in 0..count {
        if area.len() - at < 8 {
            return Err(Refused {
                refusal: Refusal::Past,
                offset: at,
            });
        }
        let n = words::read_be32(area, at + 4);
        match indices::fault_of(area, at, n) {
            Err(refusal) => {
                return Err(Refused {
                    refusal,
                    offset: at,
                });
            }
            Ok(()) => {
                found = first_found(found, at, words::read_be32(area, at) == index);
                at = at + 8 + n as usize;
            }
        }
    }
    Ok(found)
}

// Where the code of a good set stands.
pub fn part_at(area: &[u8], at: usize) -> Part
    requires { Sets area.now at }
    ensures { result ≡ part_at area.now at }
{
    let n = words::read_be32(area, at + 4) as usize;
    Part {
        start: at + 8,
        length: readers::code_length(area, at, n),
    }
}
