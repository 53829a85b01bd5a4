// The way of a clause in print. It only prints: what it prints is computed by proved functions.
use super::clause::{Clause, Rows};
use super::differences;
use domain::Domain;
use goals::Goal;
use std::io;

// The clause from its entry rows to its end, the verdicts there, and which goals may run side by side.
pub fn clause(rt: &impl Print, clause: &Clause, entry: &Rows) -> io::Result<()> {
    println!(rt; "entry")?;
    rows(rt, entry)?;
    let start = entry.enter(clause.variables);
    let end = points(rt, clause, &start)?;
    println!(rt; "returned")?;
    rows(rt, &end.at_head(clause.arguments))?;
    println!(rt; "at the end")?;
    verdicts(rt, "groups", &end.groups)?;
    verdicts(rt, "models", &end.models)?;
    println!(rt; "side by side")?;
    neighbours(rt, clause, &start)
}

fn rows(rt: &impl Print, rows: &Rows) -> io::Result<()> {
    println!(rt; "  groups  {}", rows.groups)?;
    println!(rt; "  models  {}", rows.models)
}

// The rows at every point, and where the domains differ there; the last ones are handed back.
fn points(rt: &impl Print, clause: &Clause, start: &Rows) -> io::Result<Rows> {
    let mut now = *start;
    point(rt, 0, &now)?;
    for (k, goal) in clause.goals.iter().enumerate() {
        now = now.after(goal);
        println!(rt; "goal {k}: {goal}")?;
        point(rt, k + 1, &now)?;
    }
    Ok(now)
}

fn point(rt: &impl Print, k: usize, now: &Rows) -> io::Result<()> {
    println!(rt; "point {k}")?;
    rows(rt, now)?;
    differences::print(rt, now)
}

// What a domain says of the variables of a row, and of each two of them.
fn verdicts<D: Domain>(rt: &impl Print, name: &str, row: &D) -> io::Result<()> {
    print!(rt; "  {name}  ground")?;
    for x in 0..row.width() {
        if row.ground(x) {
            print!(rt; " {x}")?;
        }
    }
    print!(rt; ", apart")?;
    for x in 0..row.width() {
        for y in 0..x {
            if row.apart(y, x) {
                print!(rt; " {y}-{x}")?;
            }
        }
    }
    println!(rt; "")
}

// Each goal with the next, at the point before the two.
fn neighbours(rt: &impl Print, clause: &Clause, start: &Rows) -> io::Result<()> {
    let mut now = *start;
    for (k, pair) in clause.goals.windows(2).enumerate() {
        let groups = answer(goals::side(&now.groups, &pair[0], &pair[1]));
        let models = answer(goals::side(&now.models, &pair[0], &pair[1]));
        println!(rt;
            "  goals {k} and {}: groups {groups}, models {models}",
            k + 1
        )?;
        now = now.after(&pair[0]);
    }
    Ok(())
}

// The word for a verdict; a type with a `Display` of its own would say no more.
fn answer(yes: bool) -> &'static str {
    if yes { "yes" } else { "no" }
}
