// The search for the next entry of a flag and type: it moves from record to record by the record's length.
ghost use Rattle.std.specs.Prelude.{◌≡◌, ◌<◌, length, drop};
ghost use Rattle.records.specs.Records.{records};
ghost use Rattle.inventory.specs.Claims.Scanning.{ahead, GoodFrom};
ghost use Rattle.inventory.specs.Claims.Search.{next_place, SearchAgrees, SearchWitness, OthersUnjudged};

use crate::wanted::Wanted;

// The place of the next record of a flag and type, from a place on where good records stand and one of them is such. Of a record
// of another flag or type only the head is read.
pub fn next_entry(inventory: &[u8], wanted: Wanted, from: usize) -> usize
    requires { GoodFrom wanted.flag wanted.item_type inventory.now from × (0 < length (ahead wanted.flag wanted.item_type inventory.now from)) }
    ensures value { result ≡ next_place wanted.flag wanted.item_type from (records (drop from inventory.now)) }
    ensures others { SearchAgrees × SearchWitness × OthersUnjudged }
{
    let mut at = from;
    while !wanted.is_at(inventory, at) {
        at += records::record_size(records::read_frame(inventory, at));
    }
    at
}
