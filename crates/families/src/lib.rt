// Families of sets of variables as bit maps over words: the ground that domains stand on whose values are such families.
// It knows nothing of terms, and nothing of what a family means.
#![tactic(auto)]

mod family;
mod filters;
mod iter;
mod listing;
pub mod mask;
mod show;

pub use family::{Family, SETS};
pub use iter::Sets;
pub use listing::Listing;
pub use mask::Mask;
