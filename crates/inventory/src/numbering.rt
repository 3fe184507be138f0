// The Starting Number: read from an argument word, stored in one, and what is asked of it in between.
ghost use Rattle.std.specs.Prelude.{◌≡◌, ◌&&◌, ◌+◌, ◌-◌, ◌≤◌, ◌<◌, eqb, leb, length};
ghost use Rattle.std.proofs.lemmas.List.Edits.{sets};
ghost use Rattle.records.specs.Records.{size_limit};
ghost use Rattle.words.specs.Numbers.{be32, be_bytes};

// The Starting Number: the number of the entry due. It counts from 1.
#[derive(Clone, Copy, PartialEq, Eq)]
pub struct StartingNumber(pub u32);

impl StartingNumber {
    // The number in a word of an argument buffer.
    pub fn read(args: &[u8], at: usize) -> StartingNumber
        requires { at + 4 ≤ length args.now }
        ensures { result.0 ≡ be32 args.now at }
    {
        StartingNumber(words::read_be32(args, at))
    }

    // The number stored in a word of an argument buffer; every other byte of the buffer stays.
    pub fn store(self, args: &mut [u8], at: usize)
        requires { at + 4 ≤ length args.old }
        ensures { args.new ≡ sets args.old at (be_bytes 4 self.0) }
    {
        words::store_be32(args, at, self.0);
    }

    // The number of the first entry.
    pub fn first() -> StartingNumber
        ensures { result.0 ≡ 1 }
    {
        StartingNumber(1)
    }

    // Whether it is the number of the first entry.
    pub fn is_first(self) -> bool
        ensures { result ≡ eqb self.0 1 }
    {
        self.0 == 1
    }

    // Whether the entry due comes next once so many entries were passed.
    pub fn is_next(self, passed: usize) -> bool
        requires { passed ≤ size_limit }
        ensures { result ≡ eqb (passed + 1) self.0 }
    {
        passed + 1 == self.0 as usize
    }

    // Whether the number is from 1 to the number of entries.
    pub fn is_among(self, count: usize) -> bool
        ensures { result ≡ (leb 1 self.0 && leb self.0 count) }
    {
        1 <= self.0 && self.0 as usize <= count
    }

    // How many entries there are from the one due on.
    pub fn entries_from(self, count: usize) -> usize
        requires { (1 ≤ self.0) × (self.0 ≤ count) }
        ensures { result ≡ count - (self.0 - 1) }
    {
        count - (self.0 as usize - 1)
    }

    // The number behind so many entries handed out.
    pub fn after(self, handed: usize) -> StartingNumber
        requires { self.0 + handed < 0x1_0000_0000 }
        ensures { result.0 ≡ self.0 + handed }
    {
        StartingNumber(self.0 + handed as u32)
    }
}
