// desk: follows one clause of a show book through its equations in both domains side by side, prints the row at every point
// as groups and as models, what each says of the variables and of neighbouring goals, and where and why they differ.
#![tactic(auto)]

mod clause;
mod differences;
mod report;

use clause::{Clause, Rows};
use domain::Refusal;
use families::Listing;
use formulas::Models;
use goals::Goal;
use sharing::Groups;

fn main(rt: HostRuntime) -> anyhow::Result<()> {
    rehearse(&rt)
}

// A note goes to the margin, and both screens go dark. Functor 1 is `margin`, and 2 is the title `blank`.
fn rehearse(rt: &HostRuntime) -> anyhow::Result<()> {
    let goals = [
        Goal::Build {
            x: 2,
            functor: 1,
            ys: &[3],
        },
        Goal::Same { x: 0, y: 1 },
        Goal::Build {
            x: 0,
            functor: 2,
            ys: &[],
        },
        Goal::Build {
            x: 1,
            functor: 2,
            ys: &[],
        },
    ];
    let clause = Clause {
        arguments: 2,
        variables: 4,
        goals: &goals,
    };
    println!(rt; "dark(Left, Right)")?;
    println!(rt; "variables  0 Left, 1 Right, 2 Margin, 3 Note")?;
    match entry(clause.arguments) {
        Ok(rows) => report::clause(rt, &clause, &rows)?,
        Err(refusal) => println!(rt; "entry row: {refusal}")?,
    }
    Ok(())
}

// One of the two titles is known when the clause is called, and they share nothing.
fn entry(arguments: u8) -> Result<Rows, Refusal> {
    let titles: Listing = Some(&[&[0], &[1]]);
    Ok(Rows {
        groups: Groups::listed(arguments, titles)?,
        models: Models::listed(arguments, titles)?,
    })
}
