// Every refusal of the product, each with its number.
ghost use Rattle.std.specs.Prelude.{◌≡◌};
ghost use Rattle.domain.specs.Refusals.{number as numbered};

use std::error::Error;
use std::fmt;

#[derive(Clone, Copy, PartialEq, Eq, Debug)]
pub enum Refusal {
    FewRows = 1,
    ManyArguments = 2,
    ManyPredicates = 3,
    NoPredicate = 4,
    VariableCount = 5,
    ManyGoals = 6,
    Variable = 7,
    Callee = 8,
    Repeated = 9,
    ManyClauses = 10,
    NoClause = 11,
    MarkedSo = 12,
    NoRow = 13,
    Width = 14,
    Bare = 15,
    NotPassed = 16,
    ClauseCut = 17,
}

impl Refusal {
    pub fn number(self) -> u8
        ensures { result ≡ numbered self }
    {
        self as u8
    }

    // Why the call was refused, for a person.
    fn reason(&self) -> &'static str {
        match self {
            Refusal::FewRows => "too few rows lent",
            Refusal::ManyArguments => "too many arguments",
            Refusal::ManyPredicates => "no room for another predicate",
            Refusal::NoPredicate => "no such predicate",
            Refusal::VariableCount => "number of variables out of bounds",
            Refusal::ManyGoals => "too many goals",
            Refusal::Variable => "variable out of bounds, or too many listed",
            Refusal::Callee =>
                "called predicate unknown, or called with another number of arguments",
            Refusal::Repeated => "a variable twice in a call",
            Refusal::ManyClauses => "no room for another clause",
            Refusal::NoClause => "no such clause",
            Refusal::MarkedSo => "the clause is marked so already",
            Refusal::NoRow => "no such row or point",
            Refusal::Width => "width out of bounds, or another width",
            Refusal::Bare => "the book has no entry yet",
            Refusal::NotPassed => "the book has not passed a check",
            Refusal::ClauseCut => "the clause is cut",
        }
    }
}

impl fmt::Display for Refusal {
    fn fmt<W: fmt::Write>(&self, f: &mut fmt::Formatter<W>) -> fmt::Result {
        let number = self.number();
        let reason = self.reason();
        write!(f, "refused, {number}: {reason}")
    }
}

impl Error for Refusal {}
