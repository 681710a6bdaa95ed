//! The parts of a sum.

ghost use Rattle.std.specs.Prelude.{◌≡◌, ◌+◌, ◌-◌, ◌^◌, ◌<◌, ◌≤◌, ◌∷◌, ◌++◌, []};
ghost use Rattle.std.specs.Prelude.{ℤ, unsigned_abs, IfOk, length};
ghost use Rattle.order_ints.specs.OrderMade.{constant_of};
ghost use Rattle.core_cost.specs.Sums.{fresh_sum_of, cost_of_sum};
ghost use Rattle.core_forms.specs.declared.form.Core.TheVariants.{Sum3, Sum};
ghost use Rattle.core_forms.specs.WellFormed.{IsSound, AreSound, greatest_abs, abs_total};
ghost use Rattle.core_forms.specs.Shapes.{shape_of, shapes_of};
ghost use Rattle.core_forms.specs.Sums.{sums_of};
ghost use Rattle.decompose.specs.LexParts.{alone};
ghost use Rattle.decompose.specs.SumParts.{less_of, fresh_of, sum_parts};

use crate::fresh::{one_part, take_first};
use bee_list::Sequence;
use core_forms::{Core, sums};
use order_ints::OrdInt;
use part_base::Parts;
use std::alloc::{AllocError, Global};

/// The number less an integer.
fn less(k: i128, a: &OrdInt) -> Result<OrdInt, AllocError>
    requires sound { IsSound a.now }
    requires limit { greatest_abs a.now + unsigned_abs k < 2 ^ 100 }
    ensures { IfOk result (λ b. b ≡ less_of k a.now) }
{
    a.negated()?.shifted(k)
}

/// Two integers, added up, are a third.
fn sum_part(alloc: Global, a: OrdInt, b: OrdInt, c: OrdInt) -> Result<Parts, AllocError>
    ensures { IfOk result (λ parts. parts ≡ alone (Sum3 a b c)) }
{
    let part = Core::sum3(alloc, a, b, c)?;
    one_part(alloc, part)
}

/// One member.
fn single_part(alloc: Global, a: OrdInt, k: i128) -> Result<Parts, AllocError>
    requires { unsigned_abs k < 2 ^ 100 }
    ensures { IfOk result (λ parts. parts ≡ sum_parts 0 (a ∷ []) k) }
{
    let zero = OrdInt::constant(alloc, 0)?;
    let sum = OrdInt::constant(alloc, k)?;
    sum_part(alloc, a, zero, sum)
}

/// No member.
fn empty_part(alloc: Global, k: i128) -> Result<Parts, AllocError>
    requires { unsigned_abs k < 2 ^ 100 }
    ensures { IfOk result (λ parts. parts ≡ sum_parts 0 [] k) }
{
    let zero = OrdInt::constant(alloc, 0)?;
    single_part(alloc, zero, k)
}

/// Two members.
fn pair_part(alloc: Global, a: OrdInt, b: OrdInt, k: i128) -> Result<Parts, AllocError>
    requires sound { IsSound b }
    requires limit { greatest_abs b + unsigned_abs k < 2 ^ 100 }
    ensures { IfOk result (λ parts. parts ≡ sum_parts 0 (a ∷ b ∷ []) k) }
{
    let zero = OrdInt::constant(alloc, 0)?;
    let rest = less(k, &b)?;
    sum_part(alloc, a, zero, rest)
}

/// Three members.
fn triple_part(alloc: Global, a: OrdInt, b: OrdInt, c: OrdInt, k: i128) -> Result<Parts, AllocError>
    requires sound { IsSound c }
    requires limit { greatest_abs c + unsigned_abs k < 2 ^ 100 }
    ensures { IfOk result (λ parts. parts ≡ sum_parts 0 (a ∷ b ∷ c ∷ []) k) }
{
    let rest = less(k, &c)?;
    sum_part(alloc, a, b, rest)
}

/// At most three members.
fn short_parts(alloc: Global, ints: Vec<OrdInt>, k: i128) -> Result<Parts, AllocError>
    requires few { length ints.items ≤ 3 }
    requires sound { AreSound ints.items }
    requires limit { abs_total ints.items + unsigned_abs k < 2 ^ 100 }
    ensures { IfOk result (λ parts. parts ≡ sum_parts 0 ints.items k) }
{
    let mut ints = ints;
    if ints.is_empty() {
        return empty_part(alloc, k);
    }
    let first = take_first(&mut ints);
    if ints.is_empty() {
        return single_part(alloc, first, k);
    }
    let second = take_first(&mut ints);
    if ints.is_empty() {
        return pair_part(alloc, first, second, k);
    }
    let third = take_first(&mut ints);
    triple_part(alloc, first, second, third, k)
}

/// The fresh integer that stands for two others added up, and how many fresh variables it has.
pub(crate) fn fresh_sum(
    alloc: Global,
    a: &OrdInt,
    b: &OrdInt,
    next_var: u32,
) -> Result<(OrdInt, u32), AllocError>
    requires a { IsSound a.now }
    requires b { IsSound b.now }
    requires limit { greatest_abs a.now + greatest_abs b.now < 2 ^ 100 }
    requires first { 1 ≤ next_var }
    requires room { next_var + (fresh_sum_of (shape_of a.now) (shape_of b.now)).steps ≤ 2 ^ 27 }
    ensures { IfOk result (λ sum. (sum.0 ≡ fresh_of next_var a.now b.now)
        × (sum.1 ≡ length (sums_of a.now b.now) - 1)) }
{
    let values = sums(alloc, a, b)?;
    let sum = OrdInt::from_values(alloc, values.as_slice(), next_var)?;
    Ok((sum, (values.len() - 1) as u32))
}

/// The other members with the fresh one behind them.
fn with_last(others: Vec<OrdInt>, last: &OrdInt) -> Result<Sequence<OrdInt>, AllocError>
    ensures { IfOk result (λ ints. ints ≡ others.items ++ last.now ∷ []) }
{
    let mut ints = others;
    ints.push(last.clone()?)?;
    Ok(Sequence::from_vec(ints))
}

/// Four members and more, by the first two and the others.
fn long_parts(
    alloc: Global,
    a: OrdInt,
    b: OrdInt,
    others: Vec<OrdInt>,
    k: i128,
    next_var: u32,
) -> Result<Parts, AllocError>
    requires a { IsSound a }
    requires b { IsSound b }
    requires limit { greatest_abs a + greatest_abs b < 2 ^ 100 }
    requires first { 1 ≤ next_var }
    requires room { next_var + (fresh_sum_of (shape_of a) (shape_of b)).steps ≤ 2 ^ 27 }
    ensures { IfOk result (λ parts. parts ≡ record {
      cores = Sum3 a b (fresh_of next_var a b) ∷ Sum (others.items ++ fresh_of next_var a b ∷ []) k ∷ [];
      fresh = length (sums_of a b) - 1;
    }) }
{
    let (sum, fresh) = fresh_sum(alloc, &a, &b, next_var)?;
    let others = with_last(others, &sum)?;
    let first = Core::sum3(alloc, a, b, sum)?;
    let second = Core::sum(alloc, others, k)?;
    Ok(Parts {
        cores: Sequence::from_vec(vec![in alloc; first, second]?),
        fresh,
    })
}

/// The parts of a sum. It takes the time to move the list and to make the values of one fresh integer.
pub(crate) fn sum_parts(
    alloc: Global,
    ints: Vec<OrdInt>,
    k: i128,
    next_var: u32,
) -> Result<Parts, AllocError>
    requires sound { AreSound ints.items }
    requires limit { abs_total ints.items + unsigned_abs k < 2 ^ 100 }
    requires first { 1 ≤ next_var }
    requires room { next_var + cost_of_sum (shapes_of ints.items) ≤ 2 ^ 27 }
    ensures { IfOk result (λ parts. parts ≡ sum_parts next_var ints.items k) }
{
    if ints.len() <= 3 {
        return short_parts(alloc, ints, k);
    }
    let mut others = ints;
    let a = take_first(&mut others);
    let b = take_first(&mut others);
    long_parts(alloc, a, b, others, k, next_var)
}
