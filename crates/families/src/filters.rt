// Parts of a family, each by a test of its sets.
ghost use Rattle.std.specs.Prelude.{◌^◌, not, take, nat_lt};
ghost use Rattle.domain.specs.Variables.{widest};
ghost use Rattle.families.specs.Families.{Part};
ghost use Rattle.families.specs.Masks.{cut as cut_down, overlaps};
ghost use Rattle.families.specs.Words.{holds};

use super::family::Family;
use super::mask;
use super::mask::{EMPTY, Mask};

impl Family {
    // The sets of variables below the width.
    pub fn narrowed(&self, width: u8) -> Family
        ensures { Part self.now (λ g. nat_lt g (2 ^ width)) result }
    {
        self.filtered(|g| mask::lies_below(g, width))
    }

    // The sets that have a variable of the mask.
    pub fn meeting(&self, mask: Mask) -> Family
        ensures { Part self.now (λ g. overlaps g mask) result }
    {
        self.filtered(|g| g & mask != EMPTY)
    }

    // The sets that have no variable of the mask.
    pub fn missing(&self, mask: Mask) -> Family
        ensures { Part self.now (λ g. not (overlaps g mask)) result }
    {
        self.filtered(|g| g & mask == EMPTY)
    }

    // The sets that, cut down to the first variables listed, are in the other family.
    pub fn viewed_in(&self, xs: &[u8], other: &Family) -> Family
        ensures { Part self.now (λ g. holds other.now (cut_down (take widest xs.now) g)) result }
    {
        self.filtered(|g| other.has(mask::cut(g, xs)))
    }
}
