// A value as it lies in a row: a width, and a bit for each set. It has no invariant: whatever lies there, a lawful value is
// read off it, by the core of the domain.
ghost use Rattle.std.specs.Prelude.{◌≡◌, ℕ, ◌≤◌, min, T, ◌↔◌, take, ◌≢◌};
ghost use Rattle.domain.specs.Variables.{widest};
ghost use Rattle.families.specs.Listings.{InBounds, Meant};
ghost use Rattle.families.specs.Words.{holds};
ghost use Rattle.rows.specs.Cores.{core as the_core};
ghost use Rattle.rows.specs.Make.{Meaning, MakesRow};
ghost use Rattle.rows.specs.Rows.{read, read_width, Off, ViewReads, ViewFollows, ViewLost};
ghost use Rattle.rows.specs.Values.{Under, never as none, joined, rank as size};

use super::cores::Core;
use super::reading::Reading;
use domain::{Refusal, WIDEST};
use families::{Family, Listing, Mask};
use std::marker::PhantomData;

#[derive(Clone, Copy)]
pub struct Row<K: Core> {
    pub width: u8,
    pub map: Family,
    core: PhantomData<K>,
}

impl<K: Core> Row<K> {
    // A width and a bit for each set, as they are.
    pub fn new(width: u8, map: Family) -> Row<K>
        ensures { (result.width ≡ width) × (result.map ≡ map) }
    {
        Row {
            width,
            map,
            core: PhantomData,
        }
    }

    // The row of the sets listed with the core, or of none for never. It refuses a width past the largest, then a listed
    // variable that is not below the width.
    pub fn listed(width: u8, sets: Listing) -> Result<Row<K>, Refusal>
        ensures { MakesRow K.core width sets.entry result }
    {
        let first = K::of(width);
        let map = Family::listed(width, sets, first)?;
        Ok(Row::made(width, sets, first, map))
    }

    // A width past the largest reads as the largest.
    pub fn width(&self) -> u8
        ensures { result ≡ read_width self.now }
    {
        self.width.min(WIDEST)
    }

    // What is read off the words.
    pub(crate) fn read(&self) -> Reading<'_, K>
        ensures { result.row.now ≡ self.now }
    {
        Reading {
            row: self,
            sets: self.sets(),
        }
    }

    // The sets that are read off the words: none past the width, and none at all where the core is missing.
    pub fn sets(&self) -> Family
        ensures { Off K.core self.now result }
    {
        self.narrowed(K::of(self.width))
    }

    // The row without sets.
    pub fn never(width: u8) -> Row<K>
        ensures { read K.core result ≡ none (min width widest) }
    {
        Row::empty(width.min(WIDEST))
    }

    // Whether each set read here is read there, at one width.
    pub fn below(&self, other: &Row<K>) -> bool
        ensures yes { T result → Under (read K.core self.now) (read K.core other.now) }
        ensures only { Under (read K.core self.now) (read K.core other.now) → T result }
    {
        self.width() == other.width() && self.sets().within(&other.sets())
    }

    // The sets of both; a row of another width adds nothing.
    pub fn join(&self, other: &Row<K>) -> Row<K>
        ensures same { read_width self.now ≡ read_width other.now → read K.core result ≡ joined (read K.core self.now) (read K.core other.now) }
        ensures differ { (read_width self.now ≢ read_width other.now) → result ≡ self.now }
    {
        if self.width() == other.width() {
            self.united(other)
        } else {
            *self
        }
    }

    // Each set cut down to the first variables listed, as many as the largest width; never, where no set is cut to the core
    // of the new width.
    pub fn view(&self, xs: &[u8]) -> Row<K>
        ensures reads { ViewReads K.core (read K.core self.now) (take widest xs.now) (read K.core result) }
        ensures rule { ViewFollows K.core (read K.core self.now) (take widest xs.now) (read K.core result) }
        ensures lost { ViewLost K.core (read K.core self.now) (take widest xs.now) (read K.core result) }
    {
        self.read().view(xs)
    }

    // How many sets there are.
    pub fn rank(&self) -> u16
        ensures { result ≡ size (read K.core self.now) }
    {
        self.read().rank()
    }

    // The sets below the width, if the core is there. Here and in `made` the core is handed in, so that a wrong one is refused
    // at the call.
    fn narrowed(&self, first: Mask) -> Family
        requires { first ≡ the_core K.core (read_width self.now) }
        ensures { Off K.core self.now result }
    {
        if self.map.has(first) {
            self.map.narrowed(self.width())
        } else {
            Family::new()
        }
    }

    // The sets of both.
    fn united(&self, other: &Row<K>) -> Row<K>
        requires { read_width self.now ≡ read_width other.now }
        ensures { read K.core result ≡ joined (read K.core self.now) (read K.core other.now) }
    {
        let map = self.sets().union(&other.sets());
        Row::new(self.width(), map)
    }

    // The row without sets.
    fn empty(width: u8) -> Row<K>
        requires { width ≤ widest }
        ensures { read K.core result ≡ none width }
    {
        Row::new(width, Family::new())
    }

    // The row of the sets that are meant.
    fn made(width: u8, sets: Listing, first: Mask, map: Family) -> Row<K>
        requires core { first ≡ the_core K.core (min width widest) }
        requires listed { (width ≤ widest) × InBounds width sets × ((h : ℕ) → T (holds map h) ↔ Meant first sets h) }
        ensures { Meaning K.core width sets.entry (read K.core result) }
    {
        Row::new(width, map)
    }
}
