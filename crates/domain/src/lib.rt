// The interface of a domain: what abstract values mean, and the functions that a book uses on them.
// It knows no particular domain, and no program.
#![tactic(auto)]

ghost use Rattle.std.specs.Prelude.{◌≡◌, ◌≤◌, T};
ghost use Rattle.domain.specs.Variables.{widest};
ghost use Rattle.domain.specs.Model.{Model, Lawful, Exact as Exactly, Variable, Sides, Arguments, Room, Placed};

mod refusal;
pub mod variables;

pub use refusal::Refusal;

// The largest width of a value.
pub const WIDEST: u8 = 8;

// An abstract value, as it lies in a row. The functions never refuse: their caller tests widths and variables first. Their
// arguments are, one by one, those that the rules name.
pub trait Domain: Copy {
    // What a value means; `model.read` gives the value that is read off the words of a row.
    ghost model: { Model Self };

    fn width(&self) -> u8
        ensures { result ≡ model.width (model.read self.now) };

    // The least value of a width: it describes nothing.
    fn never(n: u8) -> Self
        requires { n ≤ widest }
        ensures { model.read result ≡ model.never n };

    // Whether this value is at or below the other; no where widths differ.
    fn below(&self, other: &Self) -> bool
        ensures yes { T result → model.Under (model.read self.now) (model.read other.now) }
        ensures only { model.Under (model.read self.now) (model.read other.now) → T result };

    // The least upper bound.
    fn join(&self, other: &Self) -> Self
        requires { model.width (model.read self.now) ≡ model.width (model.read other.now) }
        ensures { model.read result ≡ model.joined (model.read self.now) (model.read other.now) };

    // After an equation of variable x with a side that has exactly the variables ys.
    fn tie(&self, x: u8, ys: &[u8]) -> Self
        requires { Sides model (model.read self.now) x ys.now }
        ensures { model.read result ≡ model.tied (model.read self.now) x ys.now };

    // At the variables xs, numbered by position: what a call passes to its callee.
    fn view(&self, xs: &[u8]) -> Self
        requires { Arguments model (model.read self.now) xs.now }
        ensures { model.read result ≡ model.viewed (model.read self.now) xs.now };

    // With new variables up to v of them: where a clause begins.
    fn enter(&self, v: u8) -> Self
        requires { Room model (model.read self.now) v }
        ensures { model.read result ≡ model.entered (model.read self.now) v };

    // After a call with the arguments args that ended as the callee's value `end` says.
    fn back(&self, args: &[u8], end: &Self) -> Self
        requires arguments { Arguments model (model.read self.now) args.now }
        requires placed { Placed model args.now (model.read end.now) }
        ensures { model.read result ≡ model.backed (model.read self.now) args.now (model.read end.now) };

    // Whether the value says that x is ground.
    fn ground(&self, x: u8) -> bool
        requires { Variable model (model.read self.now) x }
        ensures yes { T result → model.Ground (model.read self.now) x }
        ensures only { model.Ground (model.read self.now) x → T result };

    // Whether the value says that x and y share no variable.
    fn apart(&self, x: u8, y: u8) -> bool
        requires x_within { Variable model (model.read self.now) x }
        requires y_within { Variable model (model.read self.now) y }
        ensures yes { T result → model.Apart (model.read self.now) x y }
        ensures only { model.Apart (model.read self.now) x y → T result };

    // A number that rises strictly with the value.
    fn rank(&self) -> u16
        ensures { result ≡ model.rank (model.read self.now) };

    ghost lawful: { Lawful model };

    ghost narrow: { (w : Self) → model.width (model.read w) ≤ widest };
}

// A domain whose verdicts are exact: they say yes wherever every list described has the property.
pub trait Exact: Domain {
    ghost exact: { Exactly Self.Domain.model };
}

#[cfg(test)]
mod tests;
