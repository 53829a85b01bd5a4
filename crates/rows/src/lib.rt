// Values that are families of sets over a width, as they lie in rows, and what is the same for every domain of such values.
// It knows nothing of terms, and nothing of what a value means.
#![tactic(auto)]

mod cores;
mod reading;
mod row;
mod show;

pub use cores::{Core, Empty, Full};
pub use row::Row;
