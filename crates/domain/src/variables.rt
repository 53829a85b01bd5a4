// Lists of variables.
ghost use Rattle.std.specs.Prelude.{T};
ghost use Rattle.domain.specs.Variables.{Below as InRange};

// Whether each variable listed is below n. A `for`, since `all` would have an answer between a wrong test and its line.
pub fn below(xs: &[u8], n: u8) -> bool
    ensures yes { T result → InRange n xs.now }
    ensures only { InRange n xs.now → T result }
{
    for x in xs {
        if *x >= n {
            return false;
        }
    }
    true
}
