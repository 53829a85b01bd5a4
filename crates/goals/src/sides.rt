// The two sides of an equation, by their variables.
ghost use Rattle.std.specs.Prelude.{◌≡◌, ◌<◌, ◌∷◌, false, T, MatchBool};
ghost use Rattle.domain.specs.Variables.{Below as InRange};
ghost use Rattle.goals.specs.Goals.{SidesInside, ApartFrom, ApartAll};

use domain::{Domain, Exact, variables};

// x on the left, and ys on the right.
#[derive(Clone, Copy)]
pub(crate) struct Sides<'a> {
    pub(crate) x: u8,
    pub(crate) ys: &'a [u8],
}

impl<'a> Sides<'a> {
    // Whether each variable of the sides is below n.
    pub(crate) fn within(self, n: u8) -> bool
        ensures left { T result → self.entry.x < n }
        ensures right { T result → InRange n self.entry.ys.now }
        ensures only { self.entry.x < n → InRange n self.entry.ys.now → T result }
    {
        self.x < n && variables::below(self.ys, n)
    }

    // Whether each variable of the sides is one of the row.
    fn inside<D: Domain>(self, row: &D) -> bool
        ensures { MatchBool result (SidesInside D.Domain.model row.now self.entry)
            (SidesInside D.Domain.model row.now self.entry → ⊥) }
    {
        self.within(row.width())
    }

    // The row after the equation; one with a variable past the width leaves it as it is.
    pub(crate) fn tie<D: Domain>(self, row: &D) -> D
        ensures inside { SidesInside D.Domain.model row.now self.entry
            → D.Domain.model.read result
            ≡ D.Domain.model.tied (D.Domain.model.read row.now) self.entry.x self.entry.ys.now }
        ensures outside { (SidesInside D.Domain.model row.now self.entry → ⊥) → result ≡ row.now }
    {
        if self.inside(row) {
            row.tie(self.x, self.ys)
        } else {
            *row
        }
    }

    // Whether no variable of these sides shares with one of the others; no, where one is past the width.
    pub(crate) fn apart<D: Exact>(self, row: &D, others: Sides) -> bool
        ensures left { T result
            → ApartFrom D.Domain.model row.now self.entry.x (others.entry.x ∷ others.entry.ys.now) }
        ensures right { T result
            → ApartAll D.Domain.model row.now self.entry.ys.now (others.entry.x ∷ others.entry.ys.now) }
        ensures only { SidesInside D.Domain.model row.now self.entry → SidesInside D.Domain.model row.now others.entry
            → ApartFrom D.Domain.model row.now self.entry.x (others.entry.x ∷ others.entry.ys.now)
            → ApartAll D.Domain.model row.now self.entry.ys.now (others.entry.x ∷ others.entry.ys.now)
            → T result }
        ensures outside { (SidesInside D.Domain.model row.now self.entry
            × SidesInside D.Domain.model row.now others.entry → ⊥)
            → result ≡ false }
    {
        if !self.inside(row) || !others.inside(row) {
            return false;
        }
        others.apart_from(row, self.x) && others.apart_from_all(row, self.ys)
    }

    // Whether each of xs is apart from each variable of the sides. Here and below the bounds are clauses of their own: as one
    // fact (`SidesInside`) they stay open at the calls above.
    fn apart_from_all<D: Exact>(self, row: &D, xs: &[u8]) -> bool
        requires left { self.x < D.Domain.model.width (D.Domain.model.read row.now) }
        requires right { InRange (D.Domain.model.width (D.Domain.model.read row.now)) self.ys.now }
        requires xs { InRange (D.Domain.model.width (D.Domain.model.read row.now)) xs.now }
        ensures yes { T result → ApartAll D.Domain.model row.now xs.now (self.entry.x ∷ self.entry.ys.now) }
        ensures only { ApartAll D.Domain.model row.now xs.now (self.entry.x ∷ self.entry.ys.now) → T result }
    {
        xs.iter().all(|&x| self.apart_from(row, x))
    }

    // Whether x is apart from each variable of the sides.
    fn apart_from<D: Exact>(self, row: &D, x: u8) -> bool
        requires left { self.x < D.Domain.model.width (D.Domain.model.read row.now) }
        requires right { InRange (D.Domain.model.width (D.Domain.model.read row.now)) self.ys.now }
        requires x { x < D.Domain.model.width (D.Domain.model.read row.now) }
        ensures yes { T result → ApartFrom D.Domain.model row.now x (self.entry.x ∷ self.entry.ys.now) }
        ensures only { ApartFrom D.Domain.model row.now x (self.entry.x ∷ self.entry.ys.now) → T result }
    {
        row.apart(x, self.x) && self.ys.iter().all(|&y| row.apart(x, y))
    }
}
