//! An atom: a constant or a literal.

ghost use Rattle.std.specs.Prelude.{◌≡◌, ◌↔◌, IsTrue};
ghost use Rattle.std.specs.Cmp.{partial_equiv_from_equiv};
ghost use Rattle.order_ints.specs.Truth.{not_atom};
ghost use Rattle.order_ints.specs.Same.{is_true, is_false, same_atom};
ghost use Rattle.order_ints.specs.Equality.{same_atom_equiv};

use crate::literal::Lit;

/// A truth value that is known, or that of a literal.
#[derive(Clone, Copy, Debug)]
pub enum Atom {
    /// Always true.
    True,
    /// Never true.
    False,
    /// True where the literal is.
    Of(Lit),
}

impl Atom {
    /// The atom that is true exactly where this one is false.
    pub fn not(self) -> Atom
        ensures { result ≡ not_atom self }
    {
        match self {
            Atom::True => Atom::False,
            Atom::False => Atom::True,
            Atom::Of(literal) => Atom::Of(literal.negated()),
        }
    }

    /// Whether it is the constant that is always true.
    pub fn is_true(self) -> bool
        ensures { result ≡ is_true self }
    {
        match self {
            Atom::True => true,
            Atom::False | Atom::Of(_) => false,
        }
    }

    /// Whether it is the constant that is never true.
    pub fn is_false(self) -> bool
        ensures { result ≡ is_false self }
    {
        match self {
            Atom::False => true,
            Atom::True | Atom::Of(_) => false,
        }
    }
}

/// Atoms are equal where they are one.
impl PartialEq for Atom {
    ghost eq = { same_atom };

    ghost laws = { partial_equiv_from_equiv same_atom_equiv };

    fn eq(&self, other: &Atom) -> bool
        ensures test { result ≡ same_atom self.now other.now }
        ensures equal { IsTrue result ↔ (self.now ≡ other.now) }
    {
        match *self {
            Atom::True => other.is_true(),
            Atom::False => other.is_false(),
            Atom::Of(l) => match *other {
                Atom::Of(m) => l.var == m.var && l.positive == m.positive,
                Atom::True | Atom::False => false,
            },
        }
    }
}

impl Eq for Atom {
    ghost laws = { same_atom_equiv };
}
