// The domain of ground formulas: which variables of a clause have no variables in their terms once others have none, as a
// set of sets of them.
// It knows no program and no book.
#![tactic(auto)]

mod formulas;
mod making;
mod models;
mod parts;
mod show;

pub use models::Models;

#[cfg(test)]
mod tests;
