//! A literal: a Boolean variable or its negation.

ghost use Rattle.std.specs.Prelude.{◌≡◌, not};

/// A Boolean variable, or its negation. Variables are numbered from 1. Literals are ordered by their
/// variable, and of the two of one variable the negative one comes first.
#[derive(Clone, Copy, Debug, PartialEq, Eq, PartialOrd, Ord, Hash)]
pub struct Lit {
    /// The number of the variable.
    pub var: u32,
    /// Whether the literal is the variable itself.
    pub positive: bool,
}

impl Lit {
    /// The literal of a variable: itself, or its negation.
    pub fn of(var: u32, positive: bool) -> Lit
        ensures var { result.var ≡ var }
        ensures sign { result.positive ≡ positive }
    {
        Lit { var, positive }
    }

    /// The number of the variable.
    pub fn var(self) -> u32
        ensures { result ≡ self.var }
    {
        self.var
    }

    /// Whether it is the variable itself.
    pub fn positive(self) -> bool
        ensures { result ≡ self.positive }
    {
        self.positive
    }

    /// The literal that is true exactly where this one is false.
    pub fn negated(self) -> Lit
        ensures var { result.var ≡ self.var }
        ensures sign { result.positive ≡ not self.positive }
    {
        Lit {
            var: self.var,
            positive: !self.positive,
        }
    }
}
