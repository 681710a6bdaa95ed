//! The integers that are made of a value, of an atom, and of values with fresh variables.

ghost use Rattle.std.specs.Prelude.{◌≡◌, ℕ, suc, ◌+◌, ◌-◌, ◌^◌, ◌<◌, ◌≤◌, ℤ, pos};
ghost use Rattle.std.specs.Prelude.{◌+ℤ◌, ◌-ℤ◌, ◌<ℤ◌, unsigned_abs, IfOk, length, map};
ghost use Rattle.std.specs.Prelude.{if◌then◌else◌};
ghost use Rattle.order_ints.specs.Label.{own_labels};
ghost use Rattle.order_ints.specs.Truth.{Valuation, atom_truth};
ghost use Rattle.order_ints.specs.OrderValue.{value_of, IsOrdered};
ghost use Rattle.order_ints.specs.OrderRange.{IsBounded, AreRising, IntBelow};
ghost use Rattle.order_ints.specs.OrderLevels.{values_of};
ghost use Rattle.order_ints.specs.OrderMade.{constant_of, integer_of_atom, unit_steps, steps_between, AscendFrom};
ghost use Rattle.order_ints.specs.OrderMade.{unit_range_of, integer_of_values, values_from, AreAscending, AreSmall};
ghost use Rattle.order_ints.specs.OrderMade.{AreVars};

use super::OrdInt;
use super::signed::gap;
use crate::atom::Atom;
use crate::literal::Lit;
use bee_list::Sequence;
use std::alloc::{AllocError, Global};

/// Steps of weight 1, with the variables from one on.
fn steps_of_ones(
    alloc: Global,
    first_var: u32,
    count: u32,
) -> Result<Sequence<(Atom, u128)>, AllocError>
    requires { AreVars first_var count }
    ensures { IfOk result (λ steps. steps ≡ unit_steps first_var count) }
{
    let mut steps = Vec::with_capacity(alloc, count as usize)?;
    for k in 0..count {
        steps.push((Atom::Of(Lit::of(first_var + k, true)), 1))?;
    }
    Ok(Sequence::from_vec(steps))
}

/// The steps from a value up to each further one, with the variables from one on.
fn steps_upwards(
    alloc: Global,
    least: i128,
    values: &[i128],
    first_var: u32,
) -> Result<Sequence<(Atom, u128)>, AllocError>
    requires ascending { AscendFrom least values.now }
    requires from { unsigned_abs least < 2 ^ 100 }
    requires bounded { AreSmall values.now }
    requires variables { AreVars first_var (length values.now) }
    ensures { IfOk result (λ steps. steps ≡ steps_between least values.now first_var) }
{
    let mut steps = Vec::with_capacity(alloc, values.len())?;
    let mut value = least;
    let mut var = first_var;
    for next in values {
        steps.push((Atom::Of(Lit::of(var, true)), gap(value, *next)))?;
        value = *next;
        var += 1;
    }
    Ok(Sequence::from_vec(steps))
}

impl OrdInt {
    /// The integer that always has one value.
    pub fn constant(alloc: Global, value: i128) -> Result<OrdInt, AllocError>
        requires { unsigned_abs value < 2 ^ 100 }
        ensures shape { IfOk result (λ a. a ≡ constant_of value) }
        ensures value { IfOk result (λ a. (σ : Valuation) → value_of σ a ≡ value) }
        ensures ordered { IfOk result (λ a. (σ : Valuation) → IsOrdered σ a) }
        ensures bounded { IfOk result (λ a. IsBounded a) }
        ensures rising { IfOk result (λ a. AreRising a.steps) }
    {
        Ok(OrdInt {
            base: value,
            steps: Sequence::from_vec(Vec::new(alloc)),
        })
    }

    /// The integer that is 1 where an atom is true, and else 0.
    pub fn of_atom(alloc: Global, a: Atom) -> Result<OrdInt, AllocError>
        ensures shape { IfOk result (λ b. b ≡ integer_of_atom a) }
        ensures value { IfOk result (λ b. (σ : Valuation)
            → value_of σ b ≡ pos (if atom_truth σ a then 1 else 0)) }
        ensures ordered { IfOk result (λ b. (σ : Valuation) → IsOrdered σ b) }
        ensures bounded { IfOk result (λ b. IsBounded b) }
        ensures rising { IfOk result (λ b. AreRising b.steps) }
    {
        Ok(OrdInt {
            base: 0,
            steps: Sequence::from_vec(vec![in alloc; (a, 1)]?),
        })
    }

    /// The integer whose values are `low` to `low + count`, with a variable from `first_var` on for
    /// each value above `low`.
    pub fn unit_range(
        alloc: Global,
        low: i128,
        first_var: u32,
        count: u32,
    ) -> Result<OrdInt, AllocError>
        requires least { unsigned_abs low < 2 ^ 100 }
        requires greatest { unsigned_abs (low +ℤ pos count) < 2 ^ 100 }
        requires variables { AreVars first_var count }
        ensures shape { IfOk result (λ a. a ≡ unit_range_of low first_var count) }
        ensures values { IfOk result (λ a. values_of a ≡ values_from low (count + 1)) }
        ensures variables { IfOk result (λ a. map (λ s. s.0) a.steps ≡ own_labels first_var count) }
        ensures bounded { IfOk result (λ a. IsBounded a) }
        ensures rising { IfOk result (λ a. AreRising a.steps) }
        ensures below { IfOk result (λ a. (n : ℕ) → first_var + count ≤ n → IntBelow n a) }
    {
        Ok(OrdInt {
            base: low,
            steps: steps_of_ones(alloc, first_var, count)?,
        })
    }

    /// The integer that has the listed values, with a variable from `first_var` on for each value
    /// above the least.
    pub fn from_values(alloc: Global, values: &[i128], first_var: u32) -> Result<OrdInt, AllocError>
        requires some { 0 < length values.now }
        requires ascending { AreAscending values.now }
        requires bounded { AreSmall values.now }
        requires variables { AreVars first_var (length values.now - 1) }
        ensures shape { IfOk result (λ a. a ≡ integer_of_values values.now first_var) }
        ensures values { IfOk result (λ a. values_of a ≡ values.now) }
        ensures variables { IfOk result
            (λ a. map (λ s. s.0) a.steps ≡ own_labels first_var (length values.now - 1)) }
        ensures bounded { IfOk result (λ a. IsBounded a) }
        ensures rising { IfOk result (λ a. AreRising a.steps) }
        ensures below { IfOk result
            (λ a. (n : ℕ) → first_var + length values.now ≤ n + 1 → IntBelow n a) }
    {
        let least = values[0];
        Ok(OrdInt {
            base: least,
            steps: steps_upwards(alloc, least, &values[1..], first_var)?,
        })
    }
}
