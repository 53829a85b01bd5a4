// A figure: what a function of a domain is given, and the value that it has to give.
use families::Listing;

#[derive(Clone, Copy)]
pub enum Kind {
    Sharing,
    Formulas,
}

// A value: its width, and all of its sets.
#[derive(Clone, Copy)]
pub struct Listed<'a>(pub u8, pub Listing<'a, 'a>);

#[derive(Clone, Copy)]
pub enum Function<'a> {
    Tie { x: u8, ys: &'a [u8] },
    View { xs: &'a [u8] },
    Enter { v: u8 },
    Back { args: &'a [u8], end: Listed<'a> },
}

#[derive(Clone, Copy)]
pub struct Figure<'a> {
    pub kind: Kind,
    pub given: Listed<'a>,
    pub function: Function<'a>,
    pub expected: Listed<'a>,
}
