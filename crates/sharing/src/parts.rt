// The parts of the functions: families of groups, and the values that they make up. Where a function is the call of its part,
// the part has the answer, so that a wrong call is refused at its own line.
ghost use Rattle.std.specs.Prelude.{◌≡◌, ℕ, ◌^◌, ◌≤◌, ◌&&◌, ◌||◌, T, take, ◌==◌, nat_le};
ghost use Rattle.domain.specs.Model.{AlwaysGround, AlwaysApart, Room};
ghost use Rattle.domain.specs.Variables.{widest};
ghost use Rattle.families.specs.Families.{Part};
ghost use Rattle.families.specs.Masks.{any, bit};
ghost use Rattle.families.specs.Words.{holds};
ghost use Rattle.sharing.specs.Sharing.{sharing as the_model, read, tied as the_tie, entered as the_entry, backed as the_return, Ground, Apart};
ghost use Rattle.sharing.specs.Rules.{TieRule, EnterRule, BackRule};
ghost use Rattle.sharing.specs.Parts.{AreUntouched, AreJoined, AreUnpassed, AreReturned};

use super::groups::Groups;
use domain::Domain;
use families::{Family, mask};
use rows::Row;

impl Groups {
    // Whether there is a group at all.
    pub(crate) fn some(&self) -> bool
        ensures { result ≡ (read self.now).has 0 }
    {
        self.row.sets().has(mask::EMPTY)
    }

    // The groups that an equation leaves alone.
    #[tactic(auto, using(crate::proofs::Steps::missed_either))]
    pub(crate) fn untouched(&self, x: u8, ys: &[u8]) -> Family
        ensures { AreUntouched (read self.now) x ys.now result }
    {
        self.row.sets().missing(mask::only(x) | mask::of(ys))
    }

    // The unions that an equation makes of the others.
    pub(crate) fn joined(&self, x: u8, ys: &[u8]) -> Family
        ensures { AreJoined (read self.now) x ys.now result }
    {
        let right = mask::of(ys);
        let touched = self.row.sets().meeting(mask::only(x) | right);
        let unions = touched.unions();
        having(&unions, x).meeting(right)
    }

    // The groups that an equation leaves alone, with the unions that it makes.
    pub(crate) fn tied(&self, x: u8, ys: &[u8], joined: &Family) -> Groups
        requires { AreJoined (read self.now) x ys.now joined.now }
        ensures reads { read result ≡ the_tie (read self.now) x ys.now }
        ensures rule { TieRule (read self.now) x ys.now (read result) }
    {
        let kept = self.untouched(x, ys);
        Groups {
            row: Row::new(self.width(), kept.union(joined)),
        }
    }

    // The groups, and each new variable alone.
    pub(crate) fn entered(&self, v: u8) -> Groups
        requires { Room the_model (read self.now) v }
        ensures reads { read result ≡ the_entry (read self.now) v }
        ensures rule { EnterRule (read self.now) v (read result) }
    {
        let groups = self.row.sets();
        if !groups.has(mask::EMPTY) {
            return Groups::never(v);
        }
        let map = with_each(groups, self.width(), v);
        Groups {
            row: Row::new(v, map),
        }
    }

    // The groups that a call leaves alone.
    #[tactic(auto, using(crate::proofs::Steps::missed_listed))]
    fn unpassed(&self, args: &[u8]) -> Family
        ensures { AreUnpassed (read self.now) (take widest args.now) result }
    {
        self.row.sets().missing(mask::of(mask::first(args)))
    }

    // The unions that a call makes of the others, where it ends as `end` says.
    fn returned(&self, args: &[u8], end: &Groups) -> Family
        ensures { AreReturned (read self.now) (take widest args.now) (read end.now) result }
    {
        let passed = mask::of(mask::first(args));
        let unions = self.row.sets().meeting(passed).unions();
        unions.meeting(passed).viewed_in(args, &end.row.sets())
    }

    // The groups that a call leaves alone, with the unions that it makes.
    pub(crate) fn backed(&self, args: &[u8], end: &Groups) -> Groups
        requires { T ((read end.now).has 0) }
        ensures reads { read result ≡ the_return (read self.now) (take widest args.now) (read end.now) }
        ensures rule { BackRule (read self.now) (take widest args.now) (read end.now) (read result) }
    {
        let kept = self.unpassed(args);
        let returned = self.returned(args, end);
        Groups {
            row: Row::new(self.width(), kept.union(&returned)),
        }
    }

    // Whether no group has x.
    pub(crate) fn none_has(&self, x: u8) -> bool
        ensures yes { T result → Ground (read self.now) x }
        ensures only { Ground (read self.now) x → T result }
        ensures always { T result → AlwaysGround the_model (read self.now) x }
        ensures exact { AlwaysGround the_model (read self.now) x → T result }
    {
        self.holding(x).is_empty()
    }

    // Whether no group has both.
    pub(crate) fn none_has_both(&self, x: u8, y: u8) -> bool
        ensures yes { T result → Apart (read self.now) x y }
        ensures only { Apart (read self.now) x y → T result }
        ensures always { T result → AlwaysApart the_model (read self.now) x y }
        ensures exact { AlwaysApart the_model (read self.now) x y → T result }
    {
        having(&self.holding(x), y).is_empty()
    }

    // The groups that have x.
    fn holding(&self, x: u8) -> Family
        ensures { (g : ℕ) → holds result g ≡ ((read self.now).has g && bit g x) }
    {
        having(&self.row.sets(), x)
    }
}

// Those of the groups that have x.
#[tactic(auto, using(crate::proofs::Steps::met_alone))]
fn having(groups: &Family, x: u8) -> Family
    ensures { Part groups.now (λ g. bit g x) result }
{
    groups.meeting(mask::only(x))
}

// The family with each variable from the first number up to the second, alone.
fn with_each(family: Family, from: u8, to: u8) -> Family
    requires ordered { from ≤ to }
    requires narrow { to ≤ widest }
    ensures { (h : ℕ) → holds result h ≡ (holds family h || any to (λ i. nat_le from i && h == 2 ^ i)) }
{
    let mut all = family;
    for i in from..to {
        all.insert(mask::only(i));
    }
    all
}
