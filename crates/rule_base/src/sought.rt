//! The search along equations, for one of two different atoms or for a given one.

ghost use Rattle.std.specs.Prelude.{◌≡◌, [], ◌∷◌};
ghost use Rattle.rule_base.specs.Pairs.{is_pair_of, is_sought, first_sought, only_if};
ghost use Rattle.rule_base.specs.Stated.{all_equal};

use order_ints::Atom;

/// Which of the equations that a rule states is looked for. It is handed down to the walks along them, so
/// that finding an equation and testing one share each walk.
#[derive(Clone, Copy)]
pub enum SoughtEquation {
    /// An equation of two different atoms.
    Apart,
    /// The equation of these two atoms, in either order.
    Pair(Atom, Atom),
}

/// Whether a pair is of two atoms, in either order.
fn is_pair(a: Atom, b: Atom, x: Atom, y: Atom) -> bool
    ensures { result ≡ is_pair_of a b (x, y) }
{
    (x == a && y == b) || (x == b && y == a)
}

impl SoughtEquation {
    /// Whether the equation of two atoms is looked for.
    fn is(self, x: Atom, y: Atom) -> bool
        ensures { result ≡ is_sought self (x, y) }
    {
        match self {
            SoughtEquation::Apart => x != y,
            SoughtEquation::Pair(a, b) => is_pair(a, b, x, y),
        }
    }

    /// The equation of two atoms, if it is looked for.
    pub fn one(self, x: Atom, y: Atom) -> Option<(Atom, Atom)>
        ensures { result ≡ first_sought self ((x, y) ∷ []) }
    {
        if self.is(x, y) { Some((x, y)) } else { None }
    }

    /// The equation of two atoms, if the test holds and it is looked for.
    pub fn when(self, test: bool, x: Atom, y: Atom) -> Option<(Atom, Atom)>
        ensures { result ≡ first_sought self (only_if test ((x, y) ∷ [])) }
    {
        if test && self.is(x, y) {
            return Some((x, y));
        }
        None
    }

    /// Of the equations of each listed atom with one, the first that is looked for.
    pub fn each(self, atoms: &[Atom], b: Atom) -> Option<(Atom, Atom)>
        ensures { result ≡ first_sought self (all_equal atoms.now b) }
    {
        for atom in atoms {
            if self.is(*atom, b) {
                return Some((*atom, b));
            }
        }
        None
    }
}
