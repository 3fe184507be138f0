// Marks: places that a scan came to, with the packed counts of what stands before them.
ghost use Rattle.std.specs.Prelude.{◌≡◌, ◌+◌, ◌*◌, ◌≤◌};
ghost use Rattle.journal.specs.Journal.{number};
ghost use Rattle.journal.specs.Marks.{count, mark_limit, Noted, listed};
ghost use Rattle.journal.specs.Inner.Terms.{last_before, sought};

use crate::operation::Opcode;

// Packed counts have 21 bits for each opcode: a delete adds 1, an update this, and an addition this times this.
pub const COUNT_LIMIT: u64 = 2_097_152;

pub const LARGEST_WEIGHT: u64 = 4_398_046_511_104;

// How many marks there are at most.
const MARK_LIMIT: usize = 64;

// A place of the journal, and the packed counts of what stands before it.
#[derive(Clone, Copy)]
pub struct Mark {
    pub at: usize,
    pub counts: u64,
}

// Marks in the order of their places: the first so many of the table are noted.
#[derive(Clone, Copy)]
pub struct Marks {
    pub places: [Mark; 64],
    pub noted: usize,
}

// A place of the journal, and how many operations of an opcode are passed over from there.
#[derive(Clone, Copy)]
pub struct Place {
    pub at: usize,
    pub skip: usize,
}

// The count of an opcode in packed counts.
pub fn count_of(opcode: Opcode, packed: u64) -> usize
    ensures { result ≡ count (number opcode) packed }
{
    match opcode {
        Opcode::Delete => (packed % COUNT_LIMIT) as usize,
        Opcode::Update => (packed / COUNT_LIMIT % COUNT_LIMIT) as usize,
        Opcode::Add => (packed / LARGEST_WEIGHT % COUNT_LIMIT) as usize,
    }
}

impl Marks {
    // A table with no marks.
    pub fn none() -> Marks
        ensures { result.noted ≡ 0 }
    {
        Marks {
            places: [Mark { at: 0, counts: 0 }; 64],
            noted: 0,
        }
    }

    // One mark more, where the table has room for it.
    pub fn note(&mut self, mark: Mark)
        requires { self.old.noted ≤ mark_limit }
        ensures { Noted self.old mark self.new }
    {
        if self.noted < MARK_LIMIT {
            self.places[self.noted] = mark;
            self.noted += 1;
        }
    }

    // The last mark with no more than k operations of an opcode before it.
    fn last_before(&self, opcode: Opcode, k: usize) -> Option<Mark>
        requires { self.now.noted ≤ mark_limit }
        ensures { result ≡ last_before (number opcode) k (listed self.now) }
    {
        self.places[..self.noted]
            .iter()
            .rev()
            .copied()
            .find(|mark| count_of(opcode, mark.counts) <= k)
    }

    // Where to look for operation number k of an opcode: from that mark, or from the start.
    pub fn seek(&self, opcode: Opcode, k: usize) -> Place
        requires { self.now.noted ≤ mark_limit }
        ensures { result ≡ sought (number opcode) k (listed self.now) }
    {
        match self.last_before(opcode, k) {
            None => Place { at: 0, skip: k },
            Some(mark) => Place {
                at: mark.at,
                skip: k - count_of(opcode, mark.counts),
            },
        }
    }
}
