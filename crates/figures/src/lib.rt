// Worked figures of the domains: one table of them, proved right by the domains' definitions, and run by their code.
// It knows no program and no book.
#![tactic(auto)]

mod figure;
mod table;

pub use figure::{Figure, Function, Kind, Listed};
pub use table::figures;

#[cfg(test)]
mod tests;
