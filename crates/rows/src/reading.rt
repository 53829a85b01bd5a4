// What is read off a row, for `view` and `rank`. That it was read off the row is a ghost field, so that whoever hands on other
// sets is refused at that line.
ghost use Rattle.rows.specs.Rows.{Off};

use super::cores::Core;
use super::row::Row;
use families::{Family, mask};

// The sets of the lawful value that lies in a row.
#[derive(Drop)]
pub(crate) struct Reading<'r, K: Core> {
    pub(crate) row: &'r Row<K>,
    pub(crate) sets: Family,
    ghost off: { Off K.core row.now sets },
}

impl<'r, K: Core> Reading<'r, K> {
    ghost use Rattle.std.specs.Prelude.{◌≡◌, take};
    ghost use Rattle.domain.specs.Variables.{widest};
    ghost use Rattle.rows.specs.Rows.{read, ViewReads, ViewFollows, ViewLost};
    ghost use Rattle.rows.specs.Values.{rank as size};

    // The row of the sets cut down to the first variables listed; never, where none is cut to the core of the new width.
    pub(crate) fn view(&self, xs: &[u8]) -> Row<K>
        ensures reads { ViewReads K.core (read K.core self.now.row.now) (take widest xs.now) (read K.core result) }
        ensures rule { ViewFollows K.core (read K.core self.now.row.now) (take widest xs.now) (read K.core result) }
        ensures lost { ViewLost K.core (read K.core self.now.row.now) (take widest xs.now) (read K.core result) }
    {
        let width = mask::first(xs).len() as u8;
        Row::new(width, self.sets.view(xs))
    }

    // How many sets there are.
    pub(crate) fn rank(&self) -> u16
        ensures { result ≡ size (read K.core self.now.row.now) }
    {
        self.sets.count()
    }
}
