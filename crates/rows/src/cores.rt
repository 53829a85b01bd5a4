// The set that every lawful value of a domain has, if it has any: the empty one, or that of all variables.
ghost use Rattle.std.specs.Prelude.{◌≡◌, min};
ghost use Rattle.domain.specs.Variables.{widest};
ghost use Rattle.rows.specs.Cores.{Core, Empty, Full, core as the_core};

use families::{Mask, mask};

pub trait Core: Copy {
    // Which of the two.
    ghost core: { Core };

    // The core of the sets of variables below a width; one past the largest counts as the largest.
    fn of(width: u8) -> Mask
        ensures { result ≡ the_core core (min width widest) };
}

// The empty set.
#[derive(Clone, Copy)]
pub struct Empty;

impl Core for Empty {
    ghost core = { Empty };

    fn of(_width: u8) -> Mask {
        mask::EMPTY
    }
}

// The set of all variables.
#[derive(Clone, Copy)]
pub struct Full;

impl Core for Full {
    ghost core = { Full };

    fn of(width: u8) -> Mask {
        mask::all(width)
    }
}
