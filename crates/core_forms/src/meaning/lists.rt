//! The forms over lists of integers.

ghost use Rattle.std.specs.Prelude.{◌≡◌, ◌+◌, length, not, ◌&&◌, ◌||◌};
ghost use Rattle.std.specs.Ordering.{int_eq};
ghost use Rattle.order_ints.specs.Truth.{atom_truth};
ghost use Rattle.order_ints.specs.OrderValue.{value_of};
ghost use Rattle.core_forms.specs.declared.form.Core.TheVariants.{Max, AllDiff, Lex};
ghost use Rattle.core_forms.specs.Truths.{truths};
ghost use Rattle.core_forms.specs.Values.{values, is_greatest, none_equal, all_differ, is_before};
ghost use Rattle.core_forms.specs.WellFormed.{IsSound, AreSound};
ghost use Rattle.core_forms.specs.Meaning.{core_truth};

use super::numbers::are_same;
use super::sums::are_ordered;
use order_ints::{Atom, OrdInt, TruthValues};

/// Whether a number is the greatest of the integers' values.
fn is_maximum<T: TruthValues>(top: i128, ints: &[OrdInt], sigma: T) -> bool
    requires sound { AreSound ints.now }
    ensures { result ≡ is_greatest top (values (T.valuation sigma) ints.now) }
{
    let mut reached = false;
    for a in ints {
        let value = a.value(sigma);
        if top < value {
            return false;
        }
        if are_same(value, top) {
            reached = true;
        }
    }
    reached
}

/// Whether an integer is the greatest one.
pub(super) fn is_top<T: TruthValues>(ints: &[OrdInt], c: &OrdInt, sigma: T) -> bool
    requires sound { AreSound ints.now }
    requires sound_c { IsSound c.now }
    ensures { result ≡ core_truth (T.valuation sigma) (Max ints.now c.now) }
{
    are_ordered(ints, sigma) && c.is_ordered(sigma) && is_maximum(c.value(sigma), ints, sigma)
}

/// Whether a condition is true and an integer has this value.
fn has_value<T: TruthValues>(condition: Atom, value: i128, a: &OrdInt, sigma: T) -> bool
    requires sound { IsSound a.now }
    ensures { result ≡ (atom_truth (T.valuation sigma) condition
        && int_eq value (value_of (T.valuation sigma) a.now)) }
{
    condition.holds(sigma) && are_same(value, a.value(sigma))
}

/// Whether no integer with a true condition has this value.
fn is_alone<T: TruthValues>(value: i128, ints: &[OrdInt], conditions: &[Atom], sigma: T) -> bool
    requires sound { AreSound ints.now }
    requires lengths { length ints.now ≡ length conditions.now }
    ensures { result ≡ none_equal value (values (T.valuation sigma) ints.now)
        (truths (T.valuation sigma) conditions.now) }
{
    for i in 0..ints.len() {
        if has_value(conditions[i], value, &ints[i], sigma) {
            return false;
        }
    }
    true
}

/// Whether a condition is false, or no further integer with a true condition has the integer's value.
fn is_free<T: TruthValues>(
    condition: Atom,
    a: &OrdInt,
    ints: &[OrdInt],
    conditions: &[Atom],
    sigma: T,
) -> bool
    requires sound_a { IsSound a.now }
    requires sound { AreSound ints.now }
    requires lengths { length ints.now ≡ length conditions.now }
    ensures { result ≡ (not (atom_truth (T.valuation sigma) condition)
        || none_equal (value_of (T.valuation sigma) a.now) (values (T.valuation sigma) ints.now)
        (truths (T.valuation sigma) conditions.now)) }
{
    !condition.holds(sigma) || is_alone(a.value(sigma), ints, conditions, sigma)
}

/// Whether the integers at two places with both conditions true differ.
fn do_differ<T: TruthValues>(ints: &[OrdInt], conditions: &[Atom], sigma: T) -> bool
    requires sound { AreSound ints.now }
    requires lengths { length ints.now ≡ length conditions.now }
    ensures { result ≡ all_differ (values (T.valuation sigma) ints.now) (truths (T.valuation sigma) conditions.now) }
{
    for i in 0..ints.len() {
        let (rest, others) = (&ints[i + 1..], &conditions[i + 1..]);
        if !is_free(conditions[i], &ints[i], rest, others, sigma) {
            return false;
        }
    }
    true
}

/// Whether integers are ordered and differ where their conditions are true.
pub(super) fn are_apart<T: TruthValues>(ints: &[OrdInt], conditions: &[Atom], sigma: T) -> bool
    requires sound { AreSound ints.now }
    requires lengths { length ints.now ≡ length conditions.now }
    ensures { result ≡ core_truth (T.valuation sigma) (AllDiff ints.now conditions.now) }
{
    are_ordered(ints, sigma) && do_differ(ints, conditions, sigma)
}

/// Whether the first list of integers stands before the second, or is equal where not strict.
fn stands_before<T: TruthValues>(strict: bool, front: &[OrdInt], back: &[OrdInt], sigma: T) -> bool
    requires sound_front { AreSound front.now }
    requires sound_back { AreSound back.now }
    requires lengths { length front.now ≡ length back.now }
    ensures { result ≡ is_before strict (values (T.valuation sigma) front.now) (values (T.valuation sigma) back.now) }
{
    for i in 0..front.len() {
        let v = front[i].value(sigma);
        let w = back[i].value(sigma);
        if !are_same(v, w) {
            return v < w;
        }
    }
    !strict
}

/// Whether an atom is the truth of one list of integers standing before another.
pub(super) fn are_in_order<T: TruthValues>(
    r: Atom,
    strict: bool,
    front: &[OrdInt],
    back: &[OrdInt],
    sigma: T,
) -> bool
    requires sound_front { AreSound front.now }
    requires sound_back { AreSound back.now }
    requires lengths { length front.now ≡ length back.now }
    ensures { result ≡ core_truth (T.valuation sigma) (Lex r strict front.now back.now) }
{
    are_ordered(front, sigma)
        && are_ordered(back, sigma)
        && r.holds(sigma) == stands_before(strict, front, back, sigma)
}
