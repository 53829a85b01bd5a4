// The sets of a family, one by one.
ghost use Rattle.std.specs.Prelude.{◌≡◌};
ghost use Rattle.std.specs.Iterator.{YieldsFirst, item_count};
ghost use Rattle.families.specs.Members.{sets_of, ListsAll, Rising};

use super::family::{Family, WORDS};
use super::mask::Mask;
use std::marker::Model;

// The sets of a family, by rising mask: seen as the list of those that are left. They come word by word, by the bits that are 1,
// so that what is not there costs nothing.
#[derive(Drop)]
pub struct Sets<'f> {
    family: &'f Family,
    // The word that they come from now, and its bits of those that are left.
    word: usize,
    left: u64,
}

impl<'f> Model for Sets<'f> {
    ghost use Rattle.std.specs.Prelude.{ℕ, List};

    ghost Value = { List ℕ };

    ghost use Rattle.families.specs.Members.{sets_left};

    ghost view = { λ s. sets_left s.word s.left s.family.now };
}

impl<'f> Iterator for Sets<'f> {
    type Item = Mask;

    ghost next_gives = { YieldsFirst (λ left. left) };

    ghost remaining = { item_count (λ left. left) };

    #[tactic(auto, using(crate::proofs::Members::next_set, crate::proofs::Members::next_word, crate::proofs::Members::last_word))]
    fn next(&mut self) -> Option<Mask> {
        for k in self.word..WORDS {
            if self.left != 0 {
                let lowest = self.left.trailing_zeros() as usize;
                self.left &= !(1 << lowest);
                return Some(64 * k + lowest);
            }
            self.word = k + 1;
            self.left = self.family.word(k + 1);
        }
        None
    }
}

impl Family {
    // Its sets, each once, by rising mask.
    #[tactic(auto, using(crate::proofs::Members::first_word, crate::proofs::Members::first_all, crate::proofs::Members::first_rise))]
    pub fn iter(&self) -> Sets<'_>
        ensures list { result ≡ sets_of self.now }
        ensures each { ListsAll self.now result }
        ensures rising { Rising result }
    {
        Sets {
            family: self,
            word: 0,
            left: self.word(0),
        }
    }
}

impl<'f> IntoIterator for &'f Family {
    type Item = Mask;

    type IntoIter = Sets<'f>;

    ghost into_iter_gives = { λ family sets. (sets ≡ sets_of family.now) × ListsAll family.now sets × Rising sets };

    fn into_iter(self) -> Sets<'f> {
        self.iter()
    }
}
