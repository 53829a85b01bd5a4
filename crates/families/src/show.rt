// Families in print: {e,0,12} has the empty set, that of variable 0 alone, and that of variables 1 and 2.
use super::family::Family;
use super::mask;
use super::mask::Mask;
use domain::WIDEST;
use std::fmt;

impl fmt::Display for Family {
    #[tactic(auto, using(crate::proofs::Members::sets_few))]
    fn fmt<W: fmt::Write>(&self, f: &mut fmt::Formatter<W>) -> fmt::Result {
        if self.is_empty() {
            return f.write_str("never");
        }
        f.write_str("{")?;
        for (k, g) in self.iter().enumerate() {
            if k > 0 {
                f.write_str(",")?;
            }
            show_set(g, f)?;
        }
        f.write_str("}")
    }
}

// The variables of a set by their numbers, in rising order.
fn show_set<W: fmt::Write>(g: Mask, f: &mut fmt::Formatter<W>) -> fmt::Result {
    if g == mask::EMPTY {
        return f.write_str("e");
    }
    for x in 0..WIDEST {
        if mask::contains(g, x) {
            write!(f, "{x}")?;
        }
    }
    Ok(())
}
