// Refusals in print.
use super::Refusal;
use std::test::Fail;

#[test]
fn a_refusal_tells_its_number_and_why(rt: HostRuntime) -> Result<(), Fail> {
    let told = [
        (Refusal::FewRows, "refused, 1: too few rows lent"),
        (Refusal::ManyArguments, "refused, 2: too many arguments"),
        (
            Refusal::ManyPredicates,
            "refused, 3: no room for another predicate",
        ),
        (Refusal::NoPredicate, "refused, 4: no such predicate"),
        (
            Refusal::VariableCount,
            "refused, 5: number of variables out of bounds",
        ),
        (Refusal::ManyGoals, "refused, 6: too many goals"),
        (
            Refusal::Variable,
            "refused, 7: variable out of bounds, or too many listed",
        ),
        (
            Refusal::Callee,
            "refused, 8: called predicate unknown, or called with another number of arguments",
        ),
        (Refusal::Repeated, "refused, 9: a variable twice in a call"),
        (
            Refusal::ManyClauses,
            "refused, 10: no room for another clause",
        ),
        (Refusal::NoClause, "refused, 11: no such clause"),
        (
            Refusal::MarkedSo,
            "refused, 12: the clause is marked so already",
        ),
        (Refusal::NoRow, "refused, 13: no such row or point"),
        (
            Refusal::Width,
            "refused, 14: width out of bounds, or another width",
        ),
        (Refusal::Bare, "refused, 15: the book has no entry yet"),
        (
            Refusal::NotPassed,
            "refused, 16: the book has not passed a check",
        ),
        (Refusal::ClauseCut, "refused, 17: the clause is cut"),
    ];
    for (refusal, text) in told {
        assert_eq!(rt; refusal.to_string(rt.alloc())?.as_str(), text);
    }
    Ok(())
}
