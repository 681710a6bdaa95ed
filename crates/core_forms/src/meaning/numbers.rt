//! The forms that compare or divide integers.

ghost use Rattle.std.specs.Prelude.{◌≡◌, ◌+◌, ◌^◌, ◌<◌, unsigned_abs, ◌+ℤ◌, ◌*ℤ◌};
ghost use Rattle.std.specs.Ordering.{int_eq};
ghost use Rattle.order_ints.specs.OrderValue.{value_of, IsOrdered};
ghost use Rattle.core_forms.specs.declared.form.Core.TheVariants.{LeqR, EqR, DivMod};
ghost use Rattle.core_forms.specs.WellFormed.{IsSound, HasSmallDivisions};
ghost use Rattle.core_forms.specs.Meaning.{is_division, core_truth};

use order_ints::{Atom, OrdInt, TruthValues};

/// Whether two numbers are equal.
pub(super) fn are_same(a: i128, b: i128) -> bool
    ensures { result ≡ int_eq a b }
{
    a == b
}

/// Whether an atom is the truth of one integer being at most another.
pub(super) fn is_less<T: TruthValues>(r: Atom, a: &OrdInt, b: &OrdInt, sigma: T) -> bool
    requires sound_a { IsSound a.now }
    requires sound_b { IsSound b.now }
    ensures { result ≡ core_truth (T.valuation sigma) (LeqR r a.now b.now) }
{
    a.is_ordered(sigma)
        && b.is_ordered(sigma)
        && r.holds(sigma) == (a.value(sigma) <= b.value(sigma))
}

/// Whether an atom is the truth of two integers being equal.
pub(super) fn is_equal<T: TruthValues>(r: Atom, a: &OrdInt, b: &OrdInt, sigma: T) -> bool
    requires sound_a { IsSound a.now }
    requires sound_b { IsSound b.now }
    ensures { result ≡ core_truth (T.valuation sigma) (EqR r a.now b.now) }
{
    a.is_ordered(sigma)
        && b.is_ordered(sigma)
        && r.holds(sigma) == are_same(a.value(sigma), b.value(sigma))
}

/// Two numbers, multiplied.
pub(super) fn product(a: i128, b: i128) -> i128
    requires { unsigned_abs (a *ℤ b) < 2 ^ 101 }
    ensures { result ≡ a *ℤ b }
{
    a * b
}

/// Two numbers, added up.
pub(super) fn sum(a: i128, b: i128) -> i128
    requires a { unsigned_abs a < 2 ^ 101 }
    requires b { unsigned_abs b < 2 ^ 101 }
    ensures { result ≡ a +ℤ b }
{
    a + b
}

/// Whether a number is a product plus a rest that is from 0 and below the first factor.
fn divides(a: i128, b: i128, q: i128, r: i128) -> bool
    requires rest { unsigned_abs r < 2 ^ 100 }
    requires whole { unsigned_abs (b *ℤ q +ℤ r) < 2 ^ 100 }
    ensures { result ≡ is_division a b q r }
{
    if r < 0 {
        return false;
    }
    if b <= r {
        return false;
    }
    are_same(a, sum(product(b, q), r))
}

/// Whether the values of ordered integers are so divided.
fn is_divided<T: TruthValues>(a: &OrdInt, b: &OrdInt, q: &OrdInt, r: &OrdInt, sigma: T) -> bool
    requires sound_a { IsSound a.now }
    requires sound_b { IsSound b.now }
    requires sound_q { IsSound q.now }
    requires sound_r { IsSound r.now }
    requires small { HasSmallDivisions b.now q.now r.now }
    requires ordered_b { IsOrdered (T.valuation sigma) b.now }
    requires ordered_q { IsOrdered (T.valuation sigma) q.now }
    requires ordered_r { IsOrdered (T.valuation sigma) r.now }
    ensures { result ≡ is_division (value_of (T.valuation sigma) a.now) (value_of (T.valuation sigma) b.now)
        (value_of (T.valuation sigma) q.now) (value_of (T.valuation sigma) r.now) }
{
    let (b, q, r) = (b.value(sigma), q.value(sigma), r.value(sigma));
    divides(a.value(sigma), b, q, r)
}

/// Whether the third and fourth integers are quotient and rest of the first by the second.
pub(super) fn is_quotient<T: TruthValues>(
    a: &OrdInt,
    b: &OrdInt,
    q: &OrdInt,
    r: &OrdInt,
    sigma: T,
) -> bool
    requires sound_a { IsSound a.now }
    requires sound_b { IsSound b.now }
    requires sound_q { IsSound q.now }
    requires sound_r { IsSound r.now }
    requires small { HasSmallDivisions b.now q.now r.now }
    ensures { result ≡ core_truth (T.valuation sigma) (DivMod a.now b.now q.now r.now) }
{
    if !a.is_ordered(sigma) {
        return false;
    }
    if !b.is_ordered(sigma) {
        return false;
    }
    if !q.is_ordered(sigma) {
        return false;
    }
    if !r.is_ordered(sigma) {
        return false;
    }
    is_divided(a, b, q, r, sigma)
}
