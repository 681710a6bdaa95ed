//! Integers in the order encoding.

ghost use Rattle.std.specs.Prelude.{◌≡◌, ◌↔◌, IsTrue};
ghost use Rattle.std.specs.Cmp.{partial_equiv_from_equiv};
ghost use Rattle.order_ints.specs.Same.{same_int};
ghost use Rattle.order_ints.specs.Equality.{same_int_equiv};

mod change;
mod levels;
mod make;
mod signed;
mod value;
mod walk;

use crate::atom::Atom;
use bee_list::Sequence;
pub use levels::Levels;
pub use walk::Walk;

/// An integer whose value depends on a valuation: its base, and for each step that is true the step's
/// weight. It is ordered where no true step follows a false one; then the number of true steps tells
/// the value.
#[derive(Clone, Drop)]
pub struct OrdInt {
    /// The least value.
    pub base: i128,
    /// The steps upwards: an atom, and the weight by which it raises the value, at least 1.
    pub steps: Sequence<(Atom, u128)>,
}

/// What a declared name stands for: an atom for a Boolean, an integer in the order encoding for an
/// integer.
#[derive(Drop)]
pub enum MapValue {
    /// The truth value of a declared Boolean.
    Bool(Atom),
    /// The value of a declared integer.
    Int(OrdInt),
}

/// Integers are equal where they have one base and the same steps.
impl PartialEq for OrdInt {
    ghost eq = { same_int };

    ghost laws = { partial_equiv_from_equiv same_int_equiv };

    fn eq(&self, other: &OrdInt) -> bool
        ensures test { result ≡ same_int self.now other.now }
        ensures equal { IsTrue result ↔ (self.now ≡ other.now) }
    {
        self.base == other.base && self.steps == other.steps
    }
}

impl Eq for OrdInt {
    ghost laws = { same_int_equiv };
}
