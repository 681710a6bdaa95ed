//! Laws of costs and of fresh sums, for proofs of crates above. Each function does nothing; its
//! contract is the law.

ghost use Rattle.std.specs.Prelude.{◌≡◌, ℕ, ◌+◌, ◌*◌, ◌^◌, ◌<◌, ◌≤◌, ℤ, ◌+ℤ◌};
ghost use Rattle.std.specs.Prelude.{◌≤ℤ◌, List, length, Contains};
ghost use Rattle.order_ints.specs.declared.atom.Atom.{Atom};
ghost use Rattle.order_ints.specs.declared.order_int.OrdInt.{OrdInt};
ghost use Rattle.order_ints.specs.OrderRange.{low_of, high_of, weights, AreRising};
ghost use Rattle.order_ints.specs.OrderLevels.{values_of};
ghost use Rattle.order_ints.specs.OrderMade.{AreAscending, AreSmall, integer_of_values};
ghost use Rattle.order_ints.specs.View.{resolve};
ghost use Rattle.core_cost.specs.Sums.{fresh_sum_of};
ghost use Rattle.core_cost.specs.Relations.{IsShape, IsWithin};
ghost use Rattle.core_forms.specs.declared.form.Core.{Core};
ghost use Rattle.core_forms.specs.WellFormed.{greatest_abs, IsWellFormed};
ghost use Rattle.core_forms.specs.Resolved.{map_int};
ghost use Rattle.core_forms.specs.Trimmed.{tidied_int, trimmed_core};
ghost use Rattle.core_forms.specs.Shapes.{shape_of};
ghost use Rattle.core_forms.specs.Cost.{cost_of, HasListsInMemory};
ghost use Rattle.core_forms.specs.Sums.{sums_of};

/// Trimming never raises a cost.
pub fn cost_law()
    ensures { (view : List Atom) (core : Core)
        → IsWellFormed core → cost_of (trimmed_core view core) ≤ cost_of core }
{}

/// Where the lists of a core fit in memory, its cost fits 128 bits.
pub fn memory_law()
    ensures { (core : Core) → IsWellFormed core → HasListsInMemory core → cost_of core < 2 ^ 128 }
{}

/// An integer of which each step raises the value has a shape, and trimming never widens it.
pub fn shape_law()
    ensures shape { (a : OrdInt) → AreRising a.steps → IsShape (shape_of a) }
    ensures trimmed { (view : List Atom) (a : OrdInt)
        → IsWithin (shape_of (tidied_int (map_int (resolve view) a))) (shape_of a) }
{}

/// The values of a fresh sum ascend, each sum of two values is among them, and they lie between the
/// least and the greatest sum. An integer of these values has at most the steps that costs count, the
/// span that they count, and weights that are multiples of the divisor that they count. Its least value
/// is the least sum, so that it is no greater in absolute value than the two integers together.
pub fn sums_law()
    ensures some { (a b : OrdInt) → 0 < length (sums_of a b) }
    ensures ascending { (a b : OrdInt) → AreAscending (sums_of a b) }
    ensures small { (a b : OrdInt) → greatest_abs a + greatest_abs b < 2 ^ 100 → AreSmall (sums_of a b) }
    ensures among { (a b : OrdInt) (v w : ℤ) → Contains (values_of a) v → Contains (values_of b) w
        → Contains (sums_of a b) (v +ℤ w) }
    ensures between { (a b : OrdInt) (u : ℤ) → Contains (sums_of a b) u
        → ((low_of a +ℤ low_of b) ≤ℤ u) × (u ≤ℤ (high_of a +ℤ high_of b)) }
    ensures steps { (a b : OrdInt) → length (sums_of a b) ≤ (fresh_sum_of (shape_of a) (shape_of b)).steps + 1 }
    ensures span { (a b : OrdInt) (first : ℕ)
        → weights (integer_of_values (sums_of a b) first).steps ≡ weights a.steps + weights b.steps }
    ensures within { (a b : OrdInt) (first : ℕ)
        → IsWithin (shape_of (integer_of_values (sums_of a b) first)) (fresh_sum_of (shape_of a) (shape_of b)) }
    ensures base { (a b : OrdInt) (first : ℕ)
        → low_of (integer_of_values (sums_of a b) first) ≡ low_of a +ℤ low_of b }
    ensures abs { (a b : OrdInt) (first : ℕ)
        → greatest_abs (integer_of_values (sums_of a b) first) ≤ greatest_abs a + greatest_abs b }
{}
