// The functions of the domain. They take every argument: what lies past the largest width is left out, as each says.
ghost use Rattle.std.specs.Prelude.{◌≡◌, min, max, T, take, ◌≢◌};
ghost use Rattle.domain.specs.Variables.{widest};
ghost use Rattle.domain.specs.Model.{AlwaysGround, AlwaysApart};
ghost use Rattle.rows.specs.Values.{Under, never as none, joined, viewed, rank as size, ViewRule};
ghost use Rattle.sharing.specs.Sharing.{sharing as the_model, read, tied, entered, backed, Ground, Apart};
ghost use Rattle.sharing.specs.Rules.{TieRule, EnterRule, BackRule};
ghost use Rattle.sharing.specs.Laws;
ghost use Rattle.std.proofs.Common.{rules};

use super::groups::Groups;
use domain::{Domain, Exact, WIDEST};
use rows::Row;

impl Domain for Groups {
    ghost model = { the_model };

    ghost lawful = { Laws.lawful };

    ghost narrow = { Prim.search rules };

    // Width, never, below, join, view and rank are one call each of the row's, which has the code for both domains. A trait
    // that handed them on would need a function to the row and one from it, and be no shorter.
    fn width(&self) -> u8
        ensures { result ≡ (read self.now).width }
    {
        self.row.width()
    }

    // A width past the largest gives the largest.
    fn never(n: u8) -> Groups
        ensures { read result ≡ none (min n widest) }
    {
        Groups { row: Row::never(n) }
    }

    fn below(&self, other: &Groups) -> bool
        ensures yes { T result → Under (read self.now) (read other.now) }
        ensures only { Under (read self.now) (read other.now) → T result }
    {
        self.row.below(&other.row)
    }

    // A value of another width adds nothing.
    fn join(&self, other: &Groups) -> Groups
        ensures same { (read self.now).width ≡ (read other.now).width → read result ≡ joined (read self.now) (read other.now) }
        ensures differ { ((read self.now).width ≢ (read other.now).width) → result ≡ self.now }
    {
        Groups {
            row: self.row.join(&other.row),
        }
    }

    // A variable past the width is in no group.
    fn tie(&self, x: u8, ys: &[u8]) -> Groups
        ensures reads { read result ≡ tied (read self.now) x ys.now }
        ensures rule { TieRule (read self.now) x ys.now (read result) }
    {
        let joined = self.joined(x, ys);
        self.tied(x, ys, &joined)
    }

    // Of more variables than the largest width, the first count.
    fn view(&self, xs: &[u8]) -> Groups
        ensures reads { read result ≡ viewed (read self.now) (take widest xs.now) }
        ensures rule { ViewRule (read self.now) (take widest xs.now) (read result) }
    {
        Groups {
            row: self.row.view(xs),
        }
    }

    // A width below the value's own leaves it as it is, and one past the largest gives the largest.
    fn enter(&self, v: u8) -> Groups
        ensures reads { read result ≡ entered (read self.now) (max (read self.now).width (min v widest)) }
        ensures rule { EnterRule (read self.now) (max (read self.now).width (min v widest)) (read result) }
    {
        self.entered(self.width().max(v.min(WIDEST)))
    }

    // Of more arguments than the largest width, the first count.
    fn back(&self, args: &[u8], end: &Groups) -> Groups
        ensures reads { read result ≡ backed (read self.now) (take widest args.now) (read end.now) }
        ensures rule { BackRule (read self.now) (take widest args.now) (read end.now) (read result) }
    {
        if !end.some() {
            return Groups::never(self.width());
        }
        self.backed(args, end)
    }

    fn ground(&self, x: u8) -> bool
        ensures yes { T result → Ground (read self.now) x }
        ensures only { Ground (read self.now) x → T result }
        ensures always { T result → AlwaysGround the_model (read self.now) x }
        ensures exact { AlwaysGround the_model (read self.now) x → T result }
    {
        self.none_has(x)
    }

    fn apart(&self, x: u8, y: u8) -> bool
        ensures yes { T result → Apart (read self.now) x y }
        ensures only { Apart (read self.now) x y → T result }
        ensures always { T result → AlwaysApart the_model (read self.now) x y }
        ensures exact { AlwaysApart the_model (read self.now) x y → T result }
    {
        self.none_has_both(x, y)
    }

    // How many groups there are.
    fn rank(&self) -> u16
        ensures { result ≡ size (read self.now) }
    {
        self.row.rank()
    }
}

impl Exact for Groups {
    ghost exact = { Laws.exact };
}
