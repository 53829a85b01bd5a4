// Where the verdicts of the two domains on one point differ, and why: sharing knows which variables are shared, formulas know
// what grounds what. It only prints.
use super::clause::Rows;
use domain::Domain;
use std::io;

pub fn print(rt: &impl Print, rows: &Rows) -> io::Result<()> {
    for x in 0..rows.groups.width() {
        ground(rt, rows, x)?;
        for y in 0..x {
            apart(rt, rows, y, x)?;
        }
    }
    Ok(())
}

fn ground(rt: &impl Print, rows: &Rows, x: u8) -> io::Result<()> {
    match (rows.groups.ground(x), rows.models.ground(x)) {
        (true, false) => println!(rt;
            "    ground {x}: groups know, as none has it; models do not, as one lacks it"
        ),
        (false, true) => println!(rt;
            "    ground {x}: models know, as each has it; groups do not, as one has it"
        ),
        _ => Ok(()),
    }
}

fn apart(rt: &impl Print, rows: &Rows, x: u8, y: u8) -> io::Result<()> {
    match (rows.groups.apart(x, y), rows.models.apart(x, y)) {
        (true, false) => println!(rt;
            "    apart {x}-{y}: groups know, as none has both; models do not, as one has neither"
        ),
        (false, true) => println!(rt;
            "    apart {x}-{y}: models know, as each has one; groups do not, as one has both"
        ),
        _ => Ok(()),
    }
}
