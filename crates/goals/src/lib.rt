// Goals that are equations: what they do to a row of any domain, and which of them may run side by side.
// It knows no particular domain, and no calls.
#![tactic(auto)]

mod follow;
mod goal;
mod sides;

pub use follow::{after, side};
pub use goal::Goal;
