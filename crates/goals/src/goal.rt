// An equation between variables of a clause.
ghost use Rattle.std.specs.Prelude.{◌≡◌, T};
ghost use Rattle.domain.specs.Variables.{Below as InRange};
ghost use Rattle.goals.specs.Goals.{left_of, right_of, variables};

use super::sides::Sides;
use std::{array, fmt};

#[derive(Clone, Copy)]
pub enum Goal<'a> {
    // x = y
    Same { x: u8, y: u8 },
    // x = f(ys..)
    Build { x: u8, functor: u8, ys: &'a [u8] },
}

impl<'a> Goal<'a> {
    // The variable on the left.
    pub fn left(&self) -> u8
        ensures { result ≡ left_of self.now }
    {
        match self {
            Goal::Same { x, .. } => *x,
            Goal::Build { x, .. } => *x,
        }
    }

    // The variables on the right.
    pub fn right(&self) -> &[u8]
        ensures { result.now ≡ right_of self.now }
    {
        match self {
            Goal::Same { y, .. } => array::from_ref(y),
            Goal::Build { ys, .. } => ys,
        }
    }

    // Whether each variable of the goal is below n.
    pub fn within(&self, n: u8) -> bool
        ensures yes { T result → InRange n (variables self.now) }
        ensures only { InRange n (variables self.now) → T result }
    {
        self.sides().within(n)
    }

    // Its two sides.
    pub(crate) fn sides(&self) -> Sides<'_>
        ensures x { result.x ≡ left_of self.now }
        ensures ys { result.ys.now ≡ right_of self.now }
    {
        Sides {
            x: self.left(),
            ys: self.right(),
        }
    }
}

impl<'a> fmt::Display for Goal<'a> {
    fn fmt<W: fmt::Write>(&self, f: &mut fmt::Formatter<W>) -> fmt::Result {
        match self {
            Goal::Same { x, y } => write!(f, "same {x} {y}"),
            Goal::Build { x, functor, ys } => {
                write!(f, "build {x} {functor}")?;
                for y in ys.iter() {
                    write!(f, " {y}")?;
                }
                Ok(())
            }
        }
    }
}
