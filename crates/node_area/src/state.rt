// The State Variable, and what is asked of it.
ghost use Rattle.std.specs.Prelude.{◌≡◌, cond, [], ◌∷◌, ◌+◌, ◌<◌, ◌≤◌, ltb, length};
ghost use Rattle.std.proofs.lemmas.List.Edits.{sets};
ghost use Rattle.words.specs.Numbers.{word_bytes};
ghost use Rattle.node_area.specs.Head.{state_in};
ghost use Rattle.node_area.specs.State.{total, is_within, passed_of, remaining_of};

use journal::Counts;

// The State Variable: how many operations were reported before. It counts from 0.
#[derive(Clone, Copy, PartialEq, Eq)]
pub struct StateVariable(pub u32);

impl StateVariable {
    // The state in the first word of an area.
    pub fn read(area: &[u8]) -> StateVariable
        requires { 4 ≤ length area.now }
        ensures { result.0 ≡ state_in area.now }
    {
        StateVariable(words::read_be32(area, 0))
    }

    // The state stored in the first word of an area; every other byte of it stays.
    pub fn store(self, area: &mut [u8])
        requires { 4 ≤ length area.old }
        ensures { area.new ≡ sets area.old 0 (word_bytes (self.0 ∷ [])) }
    {
        words::store_be32(area, 0, self.0);
    }

    // How many operations were reported before, as a number with room for more.
    pub fn reported(self) -> u64
        ensures { result ≡ self.0 }
    {
        u64::from(self.0)
    }

    // Whether operations remain behind the state.
    pub fn has_more(self, all: Counts) -> bool
        requires { total all < 0x1_0000_0000_0000_0000 }
        ensures { result ≡ ltb self.0 (total all) }
    {
        (self.0 as usize) < all.deletes + all.updates + all.additions
    }

    // Whether the state is 0 or below the number of all operations.
    #[tactic(auto, using(std::proofs::lemmas::Bool::Decides::nat_tests))]
    pub fn is_within(self, all: Counts) -> bool
        requires { total all < 0x1_0000_0000_0000_0000 }
        ensures { result ≡ is_within self.0 (total all) }
    {
        self.0 == 0 || self.has_more(all)
    }

    // From which operation on each opcode continues; past its end where all were reported.
    pub fn passed(self, all: Counts) -> Counts
        ensures { result ≡ passed_of all self.0 }
    {
        let deletes = self.0 as usize;
        let updates = deletes.saturating_sub(all.deletes);
        let additions = updates.saturating_sub(all.updates);
        Counts {
            deletes,
            updates,
            additions,
        }
    }

    // How many deletes, updates and additions remain behind the state.
    pub fn remaining(self, all: Counts) -> Counts
        ensures { result ≡ remaining_of all self.0 }
    {
        let passed = self.passed(all);
        Counts {
            deletes: all.deletes.saturating_sub(passed.deletes),
            updates: all.updates.saturating_sub(passed.updates),
            additions: all.additions.saturating_sub(passed.additions),
        }
    }

    // The state behind a run from this one on.
    pub fn after(self, run: Counts) -> StateVariable
        requires { self.0 + total run < 0x1_0000_0000 }
        ensures { result.0 ≡ self.0 + total run }
    {
        StateVariable(self.0 + (run.deletes + run.updates + run.additions) as u32)
    }

    // The state that an answer carries: 0 when nothing remains.
    pub fn carried(self, more: bool) -> StateVariable
        ensures { result.0 ≡ cond more self.0 0 }
    {
        if more {
            return self;
        }
        StateVariable(0)
    }
}
