// A value of ground formulas as it lies in a row: 40 bytes at most. It has no invariant: whatever lies there, a lawful
// value is read off it.
use rows::{Full, Row};

// A type of its own, and no `Row` by another name, so that its functions have contracts in the words of the domain.
#[derive(Clone, Copy)]
pub struct Models {
    pub(crate) row: Row<Full>,
}
