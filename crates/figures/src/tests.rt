// The figures, run by the code of the domains. Each lists the set that `listed` adds, or is never.
use super::figure::{Function, Kind, Listed};
use super::table::figures;
use domain::{Domain, Refusal};
use formulas::Models;
use sharing::Groups;
use std::test::Fail;

// One generic function would owe the `requires` of `Domain`, which the functions of these two domains drop.
fn by_groups(given: Listed, function: Function) -> Result<Groups, Refusal> {
    let Listed(width, sets) = given;
    let given = Groups::listed(width, sets)?;
    Ok(match function {
        Function::Tie { x, ys } => given.tie(x, ys),
        Function::View { xs } => given.view(xs),
        Function::Enter { v } => given.enter(v),
        Function::Back {
            args,
            end: Listed(width, sets),
        } => given.back(args, &Groups::listed(width, sets)?),
    })
}

fn by_models(given: Listed, function: Function) -> Result<Models, Refusal> {
    let Listed(width, sets) = given;
    let given = Models::listed(width, sets)?;
    Ok(match function {
        Function::Tie { x, ys } => given.tie(x, ys),
        Function::View { xs } => given.view(xs),
        Function::Enter { v } => given.enter(v),
        Function::Back {
            args,
            end: Listed(width, sets),
        } => given.back(args, &Models::listed(width, sets)?),
    })
}

// Equal values may lie in unlike words, so there is no `==` on them.
fn same<D: Domain>(a: &D, b: &D) -> bool {
    a.below(b) && b.below(a)
}

#[test]
fn the_code_gives_the_figures(rt: HostRuntime) -> Result<(), Fail> {
    for figure in figures() {
        let Listed(width, sets) = figure.expected;
        match figure.kind {
            Kind::Sharing => {
                let result = by_groups(figure.given, figure.function)?;
                let expected = Groups::listed(width, sets)?;
                assert!(rt; same(&result, &expected));
            }
            Kind::Formulas => {
                let result = by_models(figure.given, figure.function)?;
                let expected = Models::listed(width, sets)?;
                assert!(rt; same(&result, &expected));
            }
        }
    }
    Ok(())
}
