//! What of an integer its cost depends on.

ghost use Rattle.std.specs.Prelude.{◌≡◌};
ghost use Rattle.core_cost.specs.Sums.{constant, unit_steps};

/// An integer in the order encoding: its number of steps, its greatest value less its least, and the
/// greatest common divisor of its weights, which is 0 without steps.
#[derive(Clone, Copy, Debug, PartialEq, Eq)]
pub struct Shape {
    pub steps: u128,
    pub span: u128,
    pub divisor: u128,
}

impl Shape {
    /// A constant.
    pub fn constant() -> Shape
        ensures { result ≡ constant }
    {
        Shape {
            steps: 0,
            span: 0,
            divisor: 0,
        }
    }

    /// So many steps of weight 1.
    pub fn units(steps: u128) -> Shape
        ensures { result ≡ unit_steps steps }
    {
        Shape {
            steps,
            span: steps,
            divisor: if steps == 0 { 0 } else { 1 },
        }
    }
}
