// A set of sets of variables, one bit for each set.
ghost use Rattle.std.specs.Prelude.{◌≡◌, ℕ, T, take, ◌<◌, bit_or, slice_index};
ghost use Rattle.domain.specs.Variables.{widest};
ghost use Rattle.families.specs.Families.{Nothing, Everything, Added, Either, Included, Passing, Cuts, AllUnions, inner_union};
ghost use Rattle.families.specs.Masks.{count as counted};
ghost use Rattle.families.specs.Words.{holds, sets, word_count};

use super::mask;
use super::mask::Mask;
use domain::WIDEST;
use std::array;

// How many sets there are of variables below the largest width, and how many words hold a bit for each.
pub const SETS: usize = 1 << WIDEST;

pub(crate) const WORDS: usize = SETS / 64;

// A fixed table, since values lie in lent rows and nothing here allocates.
#[derive(Clone, Copy)]
pub struct Family {
    words: [u64; WORDS],
}

impl Family {
    // No set at all.
    pub fn new() -> Family
        ensures { Nothing result }
    {
        Family { words: [0; WORDS] }
    }

    // Every set of variables below the largest width.
    pub fn all() -> Family
        ensures { Everything result }
    {
        let mut every = Family::new();
        for set in 0..SETS {
            every.insert(set);
        }
        every
    }

    pub fn has(&self, g: Mask) -> bool
        ensures { result ≡ holds self.now g }
    {
        g < SETS && (self.words[g / 64] >> (g % 64)) % 2 == 1
    }

    // The word at this place; past the last none has a bit.
    pub(crate) fn word(&self, k: usize) -> u64
        ensures { result ≡ slice_index self.now.words k }
    {
        if k < WORDS { self.words[k] } else { 0 }
    }

    // A set past the largest width is left out.
    pub fn insert(&mut self, g: Mask)
        ensures { Added self.old g self.new }
    {
        let room = 64 * WORDS;
        if g < room {
            self.words[g / 64] |= 1 << (g % 64);
        }
    }

    pub fn union(&self, other: &Family) -> Family
        ensures { Either self.now other.now result }
    {
        Family {
            words: either(&self.words, &other.words),
        }
    }

    // Whether each set of this family is one of the other's. A `for`, so that a word left out is refused for that alone: a chain
    // with a link more is refused whether the link leaves a word out or none.
    pub fn within(&self, other: &Family) -> bool
        ensures yes { T result → Included self.now other.now }
        ensures only { Included self.now other.now → T result }
    {
        for k in 0..WORDS {
            if self.words[k] | other.words[k] != other.words[k] {
                return false;
            }
        }
        true
    }

    // How many sets there are: the bits that are 1.
    pub fn count(&self) -> u16
        ensures { result ≡ counted sets (holds self.now) }
    {
        let mut n = 0;
        for word in self.words.iter() {
            n += word.count_ones() as u16;
        }
        n
    }

    pub fn is_empty(&self) -> bool
        ensures yes { T result → Nothing self.now }
        ensures only { Nothing self.now → T result }
    {
        self.within(&Family::new())
    }

    // The sets at which the test says yes.
    pub fn filtered<F: Fn(Mask) -> bool>(&self, passes: F) -> Family
        requires { F.IsAlwaysCallable passes }
        ensures { Passing self.now (F.post passes) result }
    {
        let mut passing = Family::new();
        for g in self {
            if passes(g) {
                passing.insert(g);
            }
        }
        passing
    }

    // Each set cut down to the first variables listed.
    pub fn view(&self, xs: &[u8]) -> Family
        ensures { Cuts self.now (take widest xs.now) result }
    {
        let mut cuts = Family::new();
        for g in self {
            cuts.insert(mask::cut(g, xs));
        }
        cuts
    }

    // The unions of any selection of the sets; that of none is the empty set.
    #[tactic(auto, using(crate::proofs::Loops::whole_selection, crate::proofs::Loops::selection_whole))]
    pub fn unions(&self) -> Family
        ensures { AllUnions self.now result }
    {
        Family::all().filtered(|h| self.union_within(h) == h)
    }

    // The union of the sets that lie within h: h itself, just where h is a union of some of them. None that lies within h comes
    // after h, since they come by rising mask.
    fn union_within(&self, h: Mask) -> Mask
        ensures { result ≡ inner_union self.now h }
    {
        let mut all = mask::EMPTY;
        for g in self {
            if g > h {
                return all;
            }
            if g | h == h {
                all |= g;
            }
        }
        all
    }
}

// The words with the bits of both.
fn either(words: &[u64; WORDS], others: &[u64; WORDS]) -> [u64; WORDS]
    ensures { (k : ℕ) → k < word_count → slice_index result k ≡ bit_or (slice_index words.now k) (slice_index others.now k) }
{
    array::from_fn(
        |k| -> u64
            requires { k < word_count }
            ensures { result ≡ bit_or (slice_index words.entry.now k) (slice_index others.entry.now k) }
        { words[k] | others[k] },
    )
}
