// The table of figures, in the order of docs/FIGURES.md.
ghost use Rattle.figures.specs.Figures.{Stands};

use super::figure::Function::{Back, Enter, Tie, View};
use super::figure::Kind::{Formulas, Sharing};
use super::figure::{Figure, Listed};

static FIGURES: [Figure; 10] = [
    Figure {
        kind: Sharing,
        given: Listed(3, Some(&[&[], &[0], &[1], &[0, 2]])),
        function: Tie { x: 0, ys: &[1] },
        expected: Listed(3, Some(&[&[], &[0, 1], &[0, 1, 2]])),
    },
    Figure {
        kind: Sharing,
        given: Listed(3, Some(&[&[], &[0, 1], &[0, 2], &[2]])),
        function: Tie { x: 0, ys: &[2] },
        expected: Listed(3, Some(&[&[], &[0, 2], &[0, 1, 2]])),
    },
    Figure {
        kind: Sharing,
        given: Listed(4, Some(&[&[], &[0, 2], &[0, 3], &[1]])),
        function: Tie { x: 0, ys: &[1] },
        expected: Listed(4, Some(&[&[], &[0, 1, 2], &[0, 1, 3], &[0, 1, 2, 3]])),
    },
    Figure {
        kind: Sharing,
        given: Listed(2, Some(&[&[], &[0, 1], &[1]])),
        function: Tie { x: 0, ys: &[] },
        expected: Listed(2, Some(&[&[], &[1]])),
    },
    Figure {
        kind: Sharing,
        given: Listed(3, Some(&[&[], &[0, 2], &[1]])),
        function: View { xs: &[2, 1] },
        expected: Listed(2, Some(&[&[], &[0], &[1]])),
    },
    Figure {
        kind: Sharing,
        given: Listed(1, Some(&[&[], &[0]])),
        function: Enter { v: 3 },
        expected: Listed(3, Some(&[&[], &[0], &[1], &[2]])),
    },
    Figure {
        kind: Sharing,
        given: Listed(6, Some(&[&[], &[1], &[2, 5]])),
        function: Back {
            args: &[4, 1, 5],
            end: Listed(3, Some(&[&[], &[1, 2]])),
        },
        expected: Listed(6, Some(&[&[], &[1, 2, 5]])),
    },
    Figure {
        kind: Sharing,
        given: Listed(6, Some(&[&[], &[1], &[2, 5]])),
        function: Back {
            args: &[4, 1, 5],
            end: Listed(3, None),
        },
        expected: Listed(6, None),
    },
    Figure {
        kind: Formulas,
        given: Listed(2, Some(&[&[], &[0], &[1], &[0, 1]])),
        function: Tie { x: 0, ys: &[1] },
        expected: Listed(2, Some(&[&[], &[0, 1]])),
    },
    Figure {
        kind: Formulas,
        given: Listed(2, Some(&[&[], &[0, 1]])),
        function: Tie { x: 0, ys: &[] },
        expected: Listed(2, Some(&[&[0, 1]])),
    },
];

// Every figure stands: the definitions of its domain give the value expected.
pub fn figures() -> &'static [Figure<'static>; 10]
    ensures { Stands result.now }
{
    &FIGURES
}
