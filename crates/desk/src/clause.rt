// A clause as far as it is followed here: its goals are equations.
use domain::{Domain, WIDEST};
use formulas::Models;
use goals::Goal;
use sharing::Groups;
use std::array;

const MOST: usize = WIDEST as usize;

// Its first variables are the arguments of its head.
#[derive(Clone, Copy)]
pub struct Clause<'g, 'v> {
    pub arguments: u8,
    pub variables: u8,
    pub goals: &'g [Goal<'v>],
}

// The row at a point, as each domain has it.
#[derive(Clone, Copy)]
pub struct Rows {
    pub groups: Groups,
    pub models: Models,
}

impl Rows {
    pub(crate) fn enter(&self, variables: u8) -> Rows {
        Rows {
            groups: self.groups.enter(variables),
            models: self.models.enter(variables),
        }
    }

    pub(crate) fn after(&self, goal: &Goal) -> Rows {
        Rows {
            groups: goals::after(&self.groups, goal),
            models: goals::after(&self.models, goal),
        }
    }

    // What a clause returns that ends with these rows: what they are at the arguments of its head.
    pub(crate) fn at_head(&self, arguments: u8) -> Rows {
        let all: [u8; MOST] = array::from_fn(|x| x as u8);
        let head = &all[..arguments.min(WIDEST) as usize];
        Rows {
            groups: self.groups.view(head),
            models: self.models.view(head),
        }
    }
}
