// Sets of variables as a caller lists them, to make a value of.
ghost use Rattle.std.specs.Prelude.{ℕ, T, ◌↔◌};
ghost use Rattle.families.specs.Listings.{Within, Codes, Lists};
ghost use Rattle.families.specs.Words.{holds};

use super::family::Family;
use super::mask;
use super::mask::Mask;
use domain::{Refusal, WIDEST, variables};

// The sets listed, or none at all for never; their order counts for nothing, nor does it count how often something is
// listed.
pub type Listing<'s, 'v> = Option<&'s [&'v [u8]]>;

impl Family {
    // The sets listed with the core, or no set for never. It refuses a width past the largest, then a listed variable that
    // is not below the width. Width and sets are two arguments, as make has them.
    pub fn listed(width: u8, sets: Listing, core: Mask) -> Result<Family, Refusal>
        ensures { Lists width core sets.entry result }
    {
        if width > WIDEST {
            return Err(Refusal::Width);
        }
        let Some(sets) = sets else {
            return Ok(Family::new());
        };
        if !within(sets, width) {
            return Err(Refusal::Variable);
        }
        let mut family = coded(sets);
        family.insert(core);
        Ok(family)
    }
}

// Whether each variable of each set is below n. A `for`, since `all` would have an answer between a wrong test and its line.
fn within(sets: &[&[u8]], n: u8) -> bool
    ensures yes { T result → Within n sets.now }
    ensures only { Within n sets.now → T result }
{
    for set in sets {
        if !variables::below(set, n) {
            return false;
        }
    }
    true
}

// The sets listed, as far as their variables are below the largest width.
fn coded(sets: &[&[u8]]) -> Family
    ensures { (g : ℕ) → T (holds result g) ↔ Codes sets.now g }
{
    let mut made = Family::new();
    for set in sets {
        made.insert(mask::of(set));
    }
    made
}
