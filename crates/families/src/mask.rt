// A set of variables as a mask: variable i is in it where bit i is 1.
ghost use Rattle.std.specs.Prelude.{◌≡◌, ◌<◌, ◌^◌, min, take, nat_lt};
ghost use Rattle.domain.specs.Variables.{widest};
ghost use Rattle.families.specs.MaskLaws.{SameLaw, AloneLaw, WholeLaw, CodedLaw, CutLaw, MeetsLaw, CoversLaw, OverlapsLaw};
ghost use Rattle.families.specs.Masks.{bit, alone, whole, coded, cut as cut_down};

use domain::WIDEST;

pub type Mask = usize;

// The set without variables.
pub const EMPTY: Mask = 0;

// Whether x is in the set.
pub fn contains(g: Mask, x: u8) -> bool
    ensures { result ≡ bit g x }
{
    x < 64 && (g >> x) % 2 == 1
}

// The variable x alone; nothing where x is not below the largest width.
pub fn only(x: u8) -> Mask
    ensures { result ≡ alone x }
{
    if x < WIDEST { 1 << x } else { EMPTY }
}

// All variables below n, as far as they are below the largest width.
pub fn all(n: u8) -> Mask
    ensures { result ≡ whole (min n widest) }
{
    (1 << n.min(WIDEST)) - 1
}

// Whether each variable of the set is below n.
pub(crate) fn lies_below(g: Mask, n: u8) -> bool
    ensures { result ≡ nat_lt g (2 ^ n) }
{
    n >= 64 || g < 1 << n
}

// The variables listed, as far as they are below the largest width.
pub fn of(xs: &[u8]) -> Mask
    ensures { result ≡ coded xs.now }
{
    let mut all = EMPTY;
    for x in xs {
        all |= only(*x);
    }
    all
}

// The first variables listed, as many as the largest width.
pub fn first(xs: &[u8]) -> &[u8]
    ensures { result.now ≡ take widest xs.now }
{
    let n = xs.len().min(WIDEST as usize);
    &xs[0..n]
}

// The set cut down to the first variables listed, and numbered by position.
pub(crate) fn cut(g: Mask, xs: &[u8]) -> Mask
    ensures { result ≡ cut_down (take widest xs.now) g }
{
    let mut places = EMPTY;
    for (i, x) in first(xs).iter().enumerate() {
        if contains(g, *x) {
            places |= 1 << i;
        }
    }
    places
}

// The definitions that the contracts here and above cite, in plain words.
pub fn masks_stand()
    ensures same { SameLaw }
    ensures alone { AloneLaw }
    ensures whole { WholeLaw }
    ensures coded { CodedLaw }
    ensures cut { CutLaw }
    ensures meets { MeetsLaw }
    ensures covers { CoversLaw }
    ensures overlaps { OverlapsLaw }
{}
