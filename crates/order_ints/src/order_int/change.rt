//! The negation, the shift and the multiples of an integer.

ghost use Rattle.std.specs.Prelude.{◌≡◌, ℕ, ◌^◌, ◌<◌, ◌*◌, ◌≤◌, neg_ℤ, ◌+ℤ◌};
ghost use Rattle.std.specs.Prelude.{◌*ℤ◌, IfOk, IsOk, map, reverse};
ghost use Rattle.order_ints.specs.Truth.{Valuation};
ghost use Rattle.order_ints.specs.OrderValue.{value_of, IsOrdered};
ghost use Rattle.order_ints.specs.OrderRange.{weights, IsBounded, AreRising, IntBelow};
ghost use Rattle.order_ints.specs.OrderChange.{negated_step, negated_of, shifted_of, multiplied_steps, scaled_of};

use super::OrdInt;
use super::signed::{minus, product, sum};
use crate::atom::Atom;
use bee_list::Sequence;
use std::alloc::{AllocError, Global};

/// The steps in reverse order, with negated atoms.
fn negated_steps(
    alloc: Global,
    steps: &[(Atom, u128)],
) -> Result<Sequence<(Atom, u128)>, AllocError>
    ensures { IfOk result (λ negated. negated ≡ map negated_step (reverse steps.now)) }
{
    let mut negated = Vec::with_capacity(alloc, steps.len())?;
    for i in (0..steps.len()).rev() {
        let (atom, weight) = steps[i];
        negated.push((atom.not(), weight))?;
    }
    Ok(Sequence::from_vec(negated))
}

/// The steps with their weights multiplied, in place.
fn multiplied(steps: Sequence<(Atom, u128)>, factor: u128) -> Sequence<(Atom, u128)>
    requires { factor * weights steps < 2 ^ 128 }
    ensures { result ≡ multiplied_steps factor steps }
{
    let mut steps = steps.into_vec();
    for step in steps.iter_mut() {
        step.1 = factor * step.1;
    }
    Sequence::from_vec(steps)
}

/// The steps as they are.
fn copied(steps: &Sequence<(Atom, u128)>) -> Result<Sequence<(Atom, u128)>, AllocError>
    ensures { IfOk result (λ copy. copy ≡ steps.now) }
{
    steps.clone()
}

impl OrdInt {
    /// The base of the multiple.
    fn scaled_base(&self, by: i128) -> i128
        requires before { IsBounded self.now }
        requires after { IsBounded (scaled_of self.now by) }
        ensures { result ≡ (scaled_of self.now by).base }
    {
        if by < 0 {
            return product(self.high(), by);
        }
        product(self.base, by)
    }

    /// The steps of the multiple.
    fn scaled_steps(&self, by: i128) -> Result<Sequence<(Atom, u128)>, AllocError>
        requires { IsBounded (scaled_of self.now by) }
        ensures { IfOk result (λ steps. steps ≡ (scaled_of self.now by).steps) }
    {
        if by == 0 {
            return Ok(Sequence::from_vec(Vec::new(self.steps.allocator())));
        }
        if by < 0 {
            let steps = negated_steps(self.steps.allocator(), self.steps.as_slice())?;
            return Ok(multiplied(steps, by.unsigned_abs()));
        }
        let steps = copied(&self.steps)?;
        Ok(multiplied(steps, by.unsigned_abs()))
    }

    /// Minus the integer: its base is minus the greatest value, and the steps stand in reverse order
    /// with negated atoms.
    pub fn negated(&self) -> Result<OrdInt, AllocError>
        requires { IsBounded self.now }
        ensures shape { IfOk result (λ a. a ≡ negated_of self.now) }
        ensures value { IfOk result (λ a. (σ : Valuation) → value_of σ a ≡ neg_ℤ (value_of σ self.now)) }
        ensures ordered { IfOk result (λ a. (σ : Valuation) → IsOrdered σ self.now → IsOrdered σ a) }
        ensures bounded { IfOk result (λ a. IsBounded a) }
        ensures rising { AreRising self.now.steps → IfOk result (λ a. AreRising a.steps) }
        ensures below { (n : ℕ) → IntBelow n self.now → IfOk result (λ a. IntBelow n a) }
    {
        Ok(OrdInt {
            base: minus(self.high()),
            steps: negated_steps(self.steps.allocator(), self.steps.as_slice())?,
        })
    }

    /// The integer and a constant, added up.
    pub fn shifted(&self, by: i128) -> Result<OrdInt, AllocError>
        requires before { IsBounded self.now }
        requires after { IsBounded (shifted_of self.now by) }
        ensures shape { IfOk result (λ a. a ≡ shifted_of self.now by) }
        ensures value { IfOk result (λ a. (σ : Valuation) → value_of σ a ≡ value_of σ self.now +ℤ by) }
        ensures ordered { IfOk result (λ a. (σ : Valuation) → IsOrdered σ self.now → IsOrdered σ a) }
        ensures bounded { IfOk result (λ a. IsBounded a) }
        ensures rising { AreRising self.now.steps → IfOk result (λ a. AreRising a.steps) }
        ensures below { (n : ℕ) → IntBelow n self.now → IfOk result (λ a. IntBelow n a) }
    {
        Ok(OrdInt {
            base: sum(self.base, by),
            steps: copied(&self.steps)?,
        })
    }

    /// The integer multiplied by a constant: by a negative number it is the negation that is
    /// multiplied, and by 0 it is the constant 0.
    pub fn scaled(&self, by: i128) -> Result<OrdInt, AllocError>
        requires before { IsBounded self.now }
        requires after { IsBounded (scaled_of self.now by) }
        ensures shape { IfOk result (λ a. a ≡ scaled_of self.now by) }
        ensures value { IfOk result (λ a. (σ : Valuation) → value_of σ a ≡ by *ℤ value_of σ self.now) }
        ensures ordered { IfOk result (λ a. (σ : Valuation) → IsOrdered σ self.now → IsOrdered σ a) }
        ensures bounded { IfOk result (λ a. IsBounded a) }
        ensures rising { AreRising self.now.steps → IfOk result (λ a. AreRising a.steps) }
        ensures below { (n : ℕ) → IntBelow n self.now → IfOk result (λ a. IntBelow n a) }
    {
        Ok(OrdInt {
            base: self.scaled_base(by),
            steps: self.scaled_steps(by)?,
        })
    }
}
