//! The shapes of integers, of which costs are made.

ghost use Rattle.std.specs.Prelude.{◌≡◌, ◌+◌, ◌^◌, ◌<◌, IfOk, length};
ghost use Rattle.order_ints.specs.OrderRange.{IsBounded};
ghost use Rattle.core_cost.specs.Relations.{FitsInMemory, AllFitInMemory, PairsFitInMemory};
ghost use Rattle.core_forms.specs.WellFormed.{AreSound};
ghost use Rattle.core_forms.specs.Shapes.{steps_of, shape_of, shapes_of, numbers_of_steps, pairs_of_steps};

use core_cost::{Shape, common_divisor};
use order_ints::{Atom, OrdInt};
use std::alloc::{AllocError, Global};

/// The number of members of a list of atoms.
pub(crate) fn members(atoms: &[Atom]) -> usize
    ensures value { result ≡ length atoms.now }
    ensures fits { FitsInMemory result }
{
    atoms.len()
}

/// The number of steps of a list of them.
fn length(steps: &[(Atom, u128)]) -> u128
    ensures value { result ≡ length steps.now }
    ensures fits { FitsInMemory result }
{
    steps.len() as u128
}

/// The number of steps of an integer.
pub(crate) fn steps(a: &OrdInt) -> u128
    ensures value { result ≡ steps_of a.now }
    ensures fits { FitsInMemory result }
{
    length(a.steps.as_slice())
}

/// The shape of an integer: one pass over its steps, with Euclid's algorithm at each. It takes no
/// memory.
pub fn shape(a: &OrdInt) -> Shape
    requires { IsBounded a.now }
    ensures value { result ≡ shape_of a.now }
    ensures fits { FitsInMemory result.steps }
{
    let number = steps(a);
    let steps = a.steps.as_slice();
    let mut span: u128 = 0;
    let mut divisor: u128 = 0;
    for i in (0..steps.len()).rev() {
        span += steps[i].1;
        divisor = common_divisor(steps[i].1, divisor);
    }
    Shape {
        steps: number,
        span,
        divisor,
    }
}

/// The shape of each integer.
pub(crate) fn shapes(alloc: Global, ints: &[OrdInt]) -> Result<Vec<Shape>, AllocError>
    requires { AreSound ints.now }
    ensures shapes { IfOk result (λ shapes. shapes.items ≡ shapes_of ints.now) }
    ensures fits { FitsInMemory (length ints.now) }
{
    let mut shapes = Vec::with_capacity(alloc, ints.len())?;
    for a in ints {
        shapes.push(shape(a))?;
    }
    Ok(shapes)
}

/// The number of steps of each integer.
pub(crate) fn step_numbers(alloc: Global, ints: &[OrdInt]) -> Result<Vec<u128>, AllocError>
    ensures numbers { IfOk result (λ numbers. numbers.items ≡ numbers_of_steps ints.now) }
    ensures each_fits { IfOk result (λ numbers. AllFitInMemory (numbers_of_steps ints.now)) }
    ensures fits { FitsInMemory (length ints.now) }
{
    let mut numbers = Vec::with_capacity(alloc, ints.len())?;
    for a in ints {
        numbers.push(steps(a))?;
    }
    Ok(numbers)
}

/// The numbers of steps of the two integers at each place of two lists of one length.
pub(crate) fn step_pairs(
    alloc: Global,
    front: &[OrdInt],
    back: &[OrdInt],
) -> Result<Vec<(u128, u128)>, AllocError>
    requires { length front.now ≡ length back.now }
    ensures pairs { IfOk result (λ pairs. pairs.items ≡ pairs_of_steps front.now back.now) }
    ensures each_fits { IfOk result (λ pairs. PairsFitInMemory (pairs_of_steps front.now back.now)) }
    ensures fits { FitsInMemory (length front.now) }
{
    let mut pairs = Vec::with_capacity(alloc, front.len())?;
    for i in 0..front.len() {
        pairs.push((steps(&front[i]), steps(&back[i])))?;
    }
    Ok(pairs)
}
