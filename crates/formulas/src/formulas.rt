// The functions of the domain. They take every argument: each says what it gives where a variable is past the width.
ghost use Rattle.std.specs.Prelude.{◌≡◌, min, max, T, take, ◌≢◌};
ghost use Rattle.domain.specs.Model.{Sides, AlwaysGround, AlwaysApart};
ghost use Rattle.domain.specs.Variables.{widest};
ghost use Rattle.rows.specs.Cores.{Full as full};
ghost use Rattle.rows.specs.Rows.{ViewReads, ViewFollows};
ghost use Rattle.rows.specs.Values.{Under, never as none, joined, rank as size};
ghost use Rattle.formulas.specs.Formulas.{formulas as the_model, read, entered};
ghost use Rattle.formulas.specs.Rules.{EnterRule};
ghost use Rattle.formulas.specs.Bounds.{TieReads, TieFollows, ViewPast, Matches, BackReads, BackFollows, GroundFollows, ApartFollows};
ghost use Rattle.formulas.specs.Laws;
ghost use Rattle.std.proofs.Common.{rules};

use super::models::Models;
use super::parts::unknown_at;
use domain::{Domain, Exact, WIDEST};
use rows::Row;

impl Domain for Models {
    ghost model = { the_model };

    ghost lawful = { Laws.lawful };

    ghost narrow = { Prim.search rules };

    // Width, never, below, join and rank are one call each of the row's, which has the code for both domains. A trait
    // that handed them on would need a function to the row and one from it, and be no shorter.
    fn width(&self) -> u8
        ensures { result ≡ (read self.now).width }
    {
        self.row.width()
    }

    // A width past the largest gives the largest.
    fn never(n: u8) -> Models
        ensures { read result ≡ none (min n widest) }
    {
        Models { row: Row::never(n) }
    }

    fn below(&self, other: &Models) -> bool
        ensures yes { T result → Under (read self.now) (read other.now) }
        ensures only { Under (read self.now) (read other.now) → T result }
    {
        self.row.below(&other.row)
    }

    // A value of another width adds nothing.
    fn join(&self, other: &Models) -> Models
        ensures same { (read self.now).width ≡ (read other.now).width → read result ≡ joined (read self.now) (read other.now) }
        ensures differ { ((read self.now).width ≢ (read other.now).width) → result ≡ self.now }
    {
        Models {
            row: self.row.join(&other.row),
        }
    }

    // A variable past the width leaves the value as it is.
    fn tie(&self, x: u8, ys: &[u8]) -> Models
        ensures reads { TieReads (read self.now) x ys.now (read result) }
        ensures rule { TieFollows (read self.now) x ys.now (read result) }
        ensures past { (Sides the_model (read self.now) x ys.now → ⊥) → result ≡ self.now }
    {
        self.tied(x, ys)
    }

    // Of more variables than the largest width, the first count; where one is past the width, nothing is known. By the lemma a
    // row that is made anew of the same words is as good here, so that one that is read by the other core is refused for that.
    #[tactic(auto, using(crate::proofs::Steps::below_words))]
    fn view(&self, xs: &[u8]) -> Models
        ensures reads { ViewReads full (read self.now) (take widest xs.now) (read result) }
        ensures rule { ViewFollows full (read self.now) (take widest xs.now) (read result) }
        ensures past { ViewPast (read self.now) (take widest xs.now) (read result) }
    {
        if !self.has_all(xs) {
            return unknown_at(xs);
        }
        Models {
            row: self.row.view(xs),
        }
    }

    // A width below the value's own leaves it as it is, and one past the largest gives the largest.
    fn enter(&self, v: u8) -> Models
        ensures reads { read result ≡ entered (read self.now) (max (read self.now).width (min v widest)) }
        ensures rule { EnterRule (read self.now) (max (read self.now).width (min v widest)) (read result) }
    {
        self.entered(self.width().max(v.min(WIDEST)))
    }

    // Of more arguments than the largest width, the first count; where one is past the width, or `end` has another number
    // of places, the value stays as it is.
    fn back(&self, args: &[u8], end: &Models) -> Models
        ensures reads { BackReads (read self.now) (take widest args.now) (read end.now) (read result) }
        ensures rule { BackFollows (read self.now) (take widest args.now) (read end.now) (read result) }
        ensures past { (Matches (read self.now) (take widest args.now) (read end.now) → ⊥) → result ≡ self.now }
    {
        self.backed(args, end)
    }

    // Past the width a list has no variable.
    fn ground(&self, x: u8) -> bool
        ensures rule { GroundFollows (read self.now) x result }
        ensures always { T result → AlwaysGround the_model (read self.now) x }
        ensures exact { AlwaysGround the_model (read self.now) x → T result }
    {
        x >= self.width() || self.all_have(x)
    }

    fn apart(&self, x: u8, y: u8) -> bool
        ensures rule { ApartFollows (read self.now) x y result }
        ensures always { T result → AlwaysApart the_model (read self.now) x y }
        ensures exact { AlwaysApart the_model (read self.now) x y → T result }
    {
        x.max(y) >= self.width() || self.all_have_one(x, y)
    }

    // How many models there are.
    fn rank(&self) -> u16
        ensures { result ≡ size (read self.now) }
    {
        self.row.rank()
    }
}

impl Exact for Models {
    ghost exact = { Laws.exact };
}
