// The parts of the functions: tests of their arguments, and what they make of the models. Where a
// function is the call of its part, the part has the answer, so that a wrong call is refused at its own line.
ghost use Rattle.std.specs.Prelude.{◌≡◌, ℕ, not, ◌&&◌, ◌==◌, T, bit_and, bit_or, ◌↔◌, length, nat_lt, take};
ghost use Rattle.domain.specs.Model.{Variable, Sides, Room, AlwaysGround, AlwaysApart};
ghost use Rattle.domain.specs.Variables.{widest, Below as InRange};
ghost use Rattle.families.specs.Masks.{bit, overlaps};
ghost use Rattle.families.specs.Words.{holds, sets};
ghost use Rattle.formulas.specs.Formulas.{formulas as the_model, read, alike, entered as the_entry, Ground, Apart};
ghost use Rattle.formulas.specs.Rules.{EnterRule};
ghost use Rattle.formulas.specs.Bounds.{TieReads, TieFollows, unknown, Matches, BackReads, BackFollows};

use super::models::Models;
use domain::{Domain, variables};
use families::{Family, Mask, mask};
use rows::Row;

impl Models {
    // Whether x and ys are variables of the value.
    fn has_sides(&self, x: u8, ys: &[u8]) -> bool
        ensures yes { T result → Sides the_model (read self.now) x ys.now }
        ensures only { Sides the_model (read self.now) x ys.now → T result }
    {
        let width = self.width();
        x < width && variables::below(ys, width)
    }

    // Whether the first variables listed are variables of the value.
    pub(crate) fn has_all(&self, xs: &[u8]) -> bool
        ensures yes { T result → InRange (read self.now).width (take widest xs.now) }
        ensures only { InRange (read self.now).width (take widest xs.now) → T result }
    {
        variables::below(mask::first(xs), self.width())
    }

    // Whether the first arguments are variables of the value, and `end` has a place for each.
    fn matches(&self, args: &[u8], end: &Models) -> bool
        ensures yes { T result → Matches (read self.now) (take widest args.now) (read end.now) }
        ensures only { Matches (read self.now) (take widest args.now) (read end.now) → T result }
    {
        self.has_all(args) && end.width() as usize == mask::first(args).len()
    }

    // The models that have x exactly when they have all of ys; past the width, the value as it is.
    pub(crate) fn tied(&self, x: u8, ys: &[u8]) -> Models
        ensures reads { TieReads (read self.now) x ys.now (read result) }
        ensures rule { TieFollows (read self.now) x ys.now (read result) }
        ensures past { (Sides the_model (read self.now) x ys.now → ⊥) → result ≡ self.now }
    {
        if !self.has_sides(x, ys) {
            return *self;
        }
        Models {
            row: Row::new(self.width(), self.agreeing(x, mask::of(ys))),
        }
    }

    // The models that have x exactly when they have all of the mask.
    fn agreeing(&self, x: u8, mask: Mask) -> Family
        ensures { (g : ℕ) → holds result g ≡ ((read self.now).has g && alike (bit g x) (bit_or mask g == g)) }
    {
        self.row
            .sets()
            .filtered(|g| mask::contains(g, x) == (mask | g == g))
    }

    // Each model with each set of the new variables.
    pub(crate) fn entered(&self, v: u8) -> Models
        requires { Room the_model (read self.now) v }
        ensures reads { read result ≡ the_entry (read self.now) v }
        ensures rule { EnterRule (read self.now) v (read result) }
    {
        Models {
            row: Row::new(v, self.extending(mask::all(self.width()))),
        }
    }

    // The sets that have one of the models where the mask is concerned.
    fn extending(&self, mask: Mask) -> Family
        ensures { (g : ℕ) → holds result g ≡ (nat_lt g sets && (read self.now).has (bit_and g mask)) }
    {
        let models = self.row.sets();
        Family::all().filtered(|g| models.has(g & mask))
    }

    // The models that at the arguments are models of `end`; where `end` does not match them, the value as it is.
    pub(crate) fn backed(&self, args: &[u8], end: &Models) -> Models
        ensures reads { BackReads (read self.now) (take widest args.now) (read end.now) (read result) }
        ensures rule { BackFollows (read self.now) (take widest args.now) (read end.now) (read result) }
        ensures past { (Matches (read self.now) (take widest args.now) (read end.now) → ⊥) → result ≡ self.now }
    {
        if !self.matches(args, end) {
            return *self;
        }
        let models = self.row.sets().viewed_in(args, &end.row.sets());
        Models {
            row: Row::new(self.width(), models),
        }
    }

    // Whether every model has x.
    pub(crate) fn all_have(&self, x: u8) -> bool
        requires { Variable the_model (read self.now) x }
        ensures rule { T result ↔ Ground (read self.now) x }
        ensures always { T result → AlwaysGround the_model (read self.now) x }
        ensures exact { AlwaysGround the_model (read self.now) x → T result }
    {
        self.lacking(mask::only(x)).is_empty()
    }

    // Whether every model has x or y.
    pub(crate) fn all_have_one(&self, x: u8, y: u8) -> bool
        requires x_within { Variable the_model (read self.now) x }
        requires y_within { Variable the_model (read self.now) y }
        ensures rule { T result ↔ Apart (read self.now) x y }
        ensures always { T result → AlwaysApart the_model (read self.now) x y }
        ensures exact { AlwaysApart the_model (read self.now) x y → T result }
    {
        self.lacking(mask::only(x) | mask::only(y)).is_empty()
    }

    // The models that have no variable of the mask.
    fn lacking(&self, mask: Mask) -> Family
        ensures { (g : ℕ) → holds result g ≡ ((read self.now).has g && not (overlaps g mask)) }
    {
        self.row.sets().missing(mask)
    }
}

// A place for each of the first variables listed, of which nothing is known.
pub(crate) fn unknown_at(xs: &[u8]) -> Models
    ensures { read result ≡ unknown (length (take widest xs.now)) }
{
    let width = mask::first(xs).len() as u8;
    Models {
        row: Row::new(width, Family::all()),
    }
}
