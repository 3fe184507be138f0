// The flag and type of the entries that are looked for.
ghost use Rattle.std.specs.Prelude.{◌≡◌, drop};
ghost use Rattle.records.specs.Records.{first_record};
ghost use Rattle.inventory.specs.Inner.Judging.{Readable};
ghost use Rattle.inventory.specs.Listing.{matches};

// A flag and a type.
#[derive(Clone, Copy)]
pub struct Wanted {
    pub flag: u32,
    pub item_type: u32,
}

impl Wanted {
    // Whether a record at a place has this flag and type.
    pub fn is_at(self, s: &[u8], at: usize) -> bool
        requires { Readable s.now at }
        ensures { result ≡ matches self.flag self.item_type (first_record (drop at s.now)) }
    {
        u32::from(words::read_le16(s, at + 4)) == self.flag
            && words::read_le32(s, at + 6) == self.item_type
    }
}
