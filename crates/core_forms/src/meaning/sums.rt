//! The forms that add or multiply integers.

ghost use Rattle.std.specs.Prelude.{◌≡◌, ◌^◌, ◌<◌, ◌*ℤ◌};
ghost use Rattle.order_ints.specs.OrderValue.{value_of, IsOrdered};
ghost use Rattle.std.specs.Ordering.{int_eq};
ghost use Rattle.core_forms.specs.declared.form.Core.TheVariants.{Sum3, Count, Sum, Prod};
ghost use Rattle.core_forms.specs.Values.{all_ordered, values, total};
ghost use Rattle.core_forms.specs.WellFormed.{IsSound, AreSound, abs_total, HasSmallProducts};
ghost use Rattle.core_forms.specs.Meaning.{core_truth};

use super::atoms::number_true;
use super::numbers::{are_same, product, sum};
use order_ints::{Atom, OrdInt, TruthValues};

/// Whether two integers, added up, are the third.
pub(super) fn is_sum<T: TruthValues>(a: &OrdInt, b: &OrdInt, c: &OrdInt, sigma: T) -> bool
    requires sound_a { IsSound a.now }
    requires sound_b { IsSound b.now }
    requires sound_c { IsSound c.now }
    ensures { result ≡ core_truth (T.valuation sigma) (Sum3 a.now b.now c.now) }
{
    a.is_ordered(sigma)
        && b.is_ordered(sigma)
        && c.is_ordered(sigma)
        && are_same(sum(a.value(sigma), b.value(sigma)), c.value(sigma))
}

/// Whether an integer is the number of true atoms.
pub(super) fn is_count<T: TruthValues>(atoms: &[Atom], c: &OrdInt, sigma: T) -> bool
    requires sound { IsSound c.now }
    ensures { result ≡ core_truth (T.valuation sigma) (Count atoms.now c.now) }
{
    c.is_ordered(sigma) && are_same(c.value(sigma), number_true(atoms, sigma) as i128)
}

/// Whether all integers are ordered.
pub(super) fn are_ordered<T: TruthValues>(ints: &[OrdInt], sigma: T) -> bool
    ensures { result ≡ all_ordered (T.valuation sigma) ints.now }
{
    for a in ints {
        if !a.is_ordered(sigma) {
            return false;
        }
    }
    true
}

/// The integers' values, added up.
fn total_value<T: TruthValues>(ints: &[OrdInt], sigma: T) -> i128
    requires sound { AreSound ints.now }
    requires small { abs_total ints.now < 2 ^ 100 }
    ensures { result ≡ total (values (T.valuation sigma) ints.now) }
{
    let mut added: i128 = 0;
    for a in ints {
        added = sum(added, a.value(sigma));
    }
    added
}

/// Whether the integers, added up, are a number.
pub(super) fn is_total<T: TruthValues>(ints: &[OrdInt], k: i128, sigma: T) -> bool
    requires sound { AreSound ints.now }
    requires small { abs_total ints.now < 2 ^ 100 }
    ensures { result ≡ core_truth (T.valuation sigma) (Sum ints.now k) }
{
    are_ordered(ints, sigma) && are_same(total_value(ints, sigma), k)
}

/// Whether the value of an ordered integer times that of another is the third's.
fn multiplies<T: TruthValues>(a: &OrdInt, b: &OrdInt, c: &OrdInt, sigma: T) -> bool
    requires sound_a { IsSound a.now }
    requires sound_b { IsSound b.now }
    requires sound_c { IsSound c.now }
    requires small { HasSmallProducts a.now b.now }
    requires ordered_a { IsOrdered (T.valuation sigma) a.now }
    requires ordered_b { IsOrdered (T.valuation sigma) b.now }
    ensures { result ≡ int_eq (value_of (T.valuation sigma) a.now *ℤ value_of (T.valuation sigma) b.now)
        (value_of (T.valuation sigma) c.now) }
{
    are_same(product(a.value(sigma), b.value(sigma)), c.value(sigma))
}

/// Whether an integer times another is the third under a valuation. One whose atoms are out of order there has no
/// value, so that this is false: each is looked at before the values are multiplied.
pub(super) fn is_product<T: TruthValues>(a: &OrdInt, b: &OrdInt, c: &OrdInt, sigma: T) -> bool
    requires sound_a { IsSound a.now }
    requires sound_b { IsSound b.now }
    requires sound_c { IsSound c.now }
    requires small { HasSmallProducts a.now b.now }
    ensures { result ≡ core_truth (T.valuation sigma) (Prod a.now b.now c.now) }
{
    if !a.is_ordered(sigma) {
        return false;
    }
    if !b.is_ordered(sigma) {
        return false;
    }
    c.is_ordered(sigma) && multiplies(a, b, c, sigma)
}
