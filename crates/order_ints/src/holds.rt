//! The truth of a literal and of an atom.

ghost use Rattle.std.specs.Prelude.{◌≡◌};
ghost use Rattle.order_ints.specs.Truth.{lit_truth, atom_truth};

use crate::atom::Atom;
use crate::literal::Lit;
use crate::truth_values::TruthValues;

impl Lit {
    /// Whether the literal is true.
    pub fn holds<T: TruthValues>(self, sigma: T) -> bool
        ensures { result ≡ lit_truth (T.valuation sigma) self }
    {
        sigma.truth(self.var) == self.positive
    }
}

impl Atom {
    /// Whether the atom is true.
    pub fn holds<T: TruthValues>(self, sigma: T) -> bool
        ensures { result ≡ atom_truth (T.valuation sigma) self }
    {
        match self {
            Atom::True => true,
            Atom::False => false,
            Atom::Of(literal) => literal.holds(sigma),
        }
    }
}
