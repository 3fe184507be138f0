// The reader of property areas: all properties of an area, into a buffer that the caller lends.
ghost use Rattle.std.specs.Prelude.{◌≡◌, ◌+◌, ◌*◌, ◌≤◌, length, Ok};
ghost use Rattle.std.proofs.lemmas.List.Edits.{sets};
ghost use Rattle.node_area.specs.Head.{area_size};
ghost use Rattle.property_area.specs.Head.{first_at};
ghost use Rattle.property_area.specs.Reading.{located_at, end_of, judged_at, reading};
ghost use Rattle.property_area.specs.Claims.Cursor.{pieces_from};
ghost use Rattle.readers.specs.Readings.{property_words, properties_words, property_reading, properties_out};
ghost use Rattle.readers.specs.Claims.Readings.{PropertyWordsTell};

use crate::storing::store;

// What a reading of a property area tells: a refusal and its byte offset, or the phandle, the state and the number of properties.
#[repr(C)]
#[derive(Clone, Copy)]
pub struct PropertyReading {
    pub refusal: u32,
    pub phandle: u32,
    pub state: u32,
    pub offset: usize,
    pub entries: usize,
}

// The property at a place of the area, which a check passed, as five words from a place of the buffer on; where the property ends.
#[tactic(auto, using(crate::proofs::PropertyWords::parts_small))]
fn store_property(area: &[u8], at: usize, out: &mut [u32], to: usize) -> usize
    requires { (length area.now ≡ area_size) × (judged_at area.now at ≡ Ok (located_at area.now at)) × (to + 5 ≤ length out.old) }
    ensures value { result ≡ end_of (located_at area.now at) }
    ensures out_after { out.new ≡ sets out.old to (property_words (located_at area.now at)) }
{
    let found = property_area::locate(area, at);
    let words = [
        found.name as u32,
        found.name_length as u32,
        found.descriptor,
        found.value as u32,
        found.value_length as u32,
    ];
    store(out, to, &words);
    found.end()
}

// The first properties of an area, so many of them, which a check passed.
fn store_properties(area: &[u8], out: &mut [u32], count: usize)
    requires { (5 * count ≤ length out.old) × (length area.now ≡ area_size) × (length (pieces_from count area.now first_at) ≡ count) }
    ensures { out.new ≡ sets out.old 0 (properties_words count area.now first_at) }
{
    let mut at = property_area::FIRST_AT;
    for i in 0..count {
        at = store_property(area, at, out, 5 * i);
    }
}

// Reads a property area: the properties into `out`, five words for each, as many as it has room for.
pub fn read_properties(area: &[u8], out: &mut [u32]) -> PropertyReading
    ensures value { result ≡ property_reading area.now (reading area.now) }
    ensures out_after { out.new ≡ properties_out out.old area.now (reading area.now) }
    ensures entries { PropertyWordsTell }
{
    match property_area::check_area(area) {
        Err(refused) => PropertyReading {
            refusal: u32::from(refused.refusal),
            phandle: 0,
            state: 0,
            offset: refused.offset,
            entries: 0,
        },
        Ok(entries) => {
            store_properties(area, out, entries.min(out.len() / 5));
            PropertyReading {
                refusal: 0,
                phandle: property_area::read_phandle(area),
                state: property_area::read_state(area),
                offset: 0,
                entries,
            }
        }
    }
}
