// What goals do to a row, in any domain, and which of them may run side by side there, in any whose verdicts are exact.
ghost use Rattle.goals.specs.Goals.{After, Side};

use super::goal::Goal;
use domain::{Domain, Exact};

// The row after the goal; a goal with a variable past the width leaves it as it is.
pub fn after<D: Domain>(row: &D, goal: &Goal) -> D
    ensures { After D.Domain.model row.now goal.now result }
{
    goal.sides().tie(row)
}

// Whether no variable of the one goal shares with one of the other; no, where one is past the width.
pub fn side<D: Exact>(row: &D, first: &Goal, second: &Goal) -> bool
    ensures { Side D.Domain.model row.now first.now second.now result }
{
    first.sides().apart(row, second.sides())
}
