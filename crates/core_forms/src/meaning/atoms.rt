//! The forms over atoms alone.

ghost use Rattle.std.specs.Prelude.{◌≡◌, ◌≤◌, length};
ghost use Rattle.order_ints.specs.AtomClauses.{atom_clause_truth};
ghost use Rattle.core_forms.specs.declared.form.Core.TheVariants.{Parity, Conj, Comp, Amo};
ghost use Rattle.core_forms.specs.Truths.{all_true, true_count, is_odd};
ghost use Rattle.core_forms.specs.Meaning.{core_truth};

use order_ints::{Atom, TruthValues};

/// Whether some atom is true.
pub(super) fn is_some_true<T: TruthValues>(atoms: &[Atom], sigma: T) -> bool
    ensures { result ≡ atom_clause_truth (T.valuation sigma) atoms.now }
{
    for atom in atoms {
        if atom.holds(sigma) {
            return true;
        }
    }
    false
}

/// Whether all atoms are true.
fn are_true<T: TruthValues>(atoms: &[Atom], sigma: T) -> bool
    ensures { result ≡ all_true (T.valuation sigma) atoms.now }
{
    for atom in atoms {
        if !atom.holds(sigma) {
            return false;
        }
    }
    true
}

/// The number of true atoms.
pub(super) fn number_true<T: TruthValues>(atoms: &[Atom], sigma: T) -> usize
    ensures value { result ≡ true_count (T.valuation sigma) atoms.now }
    ensures range { result ≤ length atoms.now }
{
    let mut number = 0;
    for atom in atoms {
        if atom.holds(sigma) {
            number += 1;
        }
    }
    number
}

#[tactic(auto, using(crate::proofs::Counts::is_odd_rest))]
/// Whether a number is odd.
pub(crate) fn is_uneven(number: usize) -> bool
    ensures { result ≡ is_odd number }
{
    number % 2 == 1
}

/// Whether the number of true atoms is odd, or even.
pub(super) fn has_parity<T: TruthValues>(atoms: &[Atom], odd: bool, sigma: T) -> bool
    ensures { result ≡ core_truth (T.valuation sigma) (Parity atoms.now odd) }
{
    is_uneven(number_true(atoms, sigma)) == odd
}

/// Whether an atom is true exactly where all atoms are.
pub(super) fn are_all<T: TruthValues>(r: Atom, atoms: &[Atom], sigma: T) -> bool
    ensures { result ≡ core_truth (T.valuation sigma) (Conj r atoms.now) }
{
    r.holds(sigma) == are_true(atoms, sigma)
}

/// Whether of two atoms one is the disjunction and one the conjunction.
pub(super) fn are_compared<T: TruthValues>(a: Atom, b: Atom, hi: Atom, lo: Atom, sigma: T) -> bool
    ensures { result ≡ core_truth (T.valuation sigma) (Comp a b hi lo) }
{
    let (a, b) = (a.holds(sigma), b.holds(sigma));
    hi.holds(sigma) == (a || b) && lo.holds(sigma) == (a && b)
}

/// Whether at most one atom is true.
pub(super) fn are_few<T: TruthValues>(atoms: &[Atom], sigma: T) -> bool
    ensures { result ≡ core_truth (T.valuation sigma) (Amo atoms.now) }
{
    number_true(atoms, sigma) <= 1
}
