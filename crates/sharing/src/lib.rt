// The domain of sharing groups: which variables of a clause may share a variable, as a set of sets of them.
// It knows no program and no book.
#![tactic(auto)]

mod groups;
mod making;
mod parts;
mod sharing;
mod show;

pub use groups::Groups;

#[cfg(test)]
mod tests;
