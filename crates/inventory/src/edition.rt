// The edition of an inventory.
ghost use Rattle.std.specs.Prelude.{◌≡◌};
ghost use Rattle.inventory.specs.Edition.{edit_of};
ghost use Rattle.inventory.specs.Claims.Edition.{EditionRises};

// The edition of an inventory: it rises by one with each edit.
#[derive(Clone, Copy, PartialEq, Eq)]
pub struct Edition(pub u32);

impl Edition {
    // The edition after an edit; at the top none is taken.
    #[tactic(auto, using(std::proofs::lemmas::Bool::Decides::nat_tests, crate::proofs::Editions::edition_rises), unfolding(crate::specs::Edition::edit_of))]
    pub fn edit(self) -> Option<Edition>
        ensures value { result ≡ edit_of self }
        ensures rises { EditionRises }
    {
        self.0.checked_add(1).map(Edition)
    }
}
