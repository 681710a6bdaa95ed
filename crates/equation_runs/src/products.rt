//! The equations of a product by a constant.

ghost use Rattle.std.specs.Prelude.{◌≡◌, ◌^◌, ◌<◌, ◌++◌, map, pos, ◌≤ℤ◌, ◌<ℤ◌, unsigned_abs, OnOk};
ghost use Rattle.order_ints.specs.OrderRange.{low_of};
ghost use Rattle.core_forms.specs.WellFormed.{IsSound, HasSmallProducts};
ghost use Rattle.core_forms.specs.declared.equation.Rule.TheVariants.{Form};
ghost use Rattle.rule_base.specs.Pairs.{only_if};
ghost use Rattle.rule_base.specs.Constant.{is_constant};
ghost use Rattle.arith_rules.specs.CodeLinks.{HasSmallMultiples};
ghost use Rattle.arith_rules.specs.ProductRows.{multiple_equations, negative_equations, scaled_equations};
ghost use Rattle.equation_runs.specs.RunRows.{equation_of, prod_constants};

use crate::links::{push_linked, push_linked_back, push_opposed, push_opposed_above};
use arith_rules::Link;
use core_forms::Equation;
use order_ints::OrdInt;
use rule_base::is_constant;
use std::alloc::AllocError;

/// Adds the equations of `k` times `b` being `c`, for a `k` above 0.
fn push_multiple(
    run: &mut Vec<Equation>,
    k: &i128,
    b: &OrdInt,
    c: &OrdInt,
) -> Result<(), AllocError>
    requires k { (pos 1 ≤ℤ k.now) × (unsigned_abs k.now < 2 ^ 100) }
    requires b { IsSound b.now }
    requires c { IsSound c.now }
    requires multiples { HasSmallMultiples k.now b.now }
    ensures { OnOk result (run.new.items
        ≡ run.old.items ++ map (equation_of Form) (multiple_equations k.now b.now c.now)) }
{
    let times = Link::Times(*k);
    let ceiling = Link::Ceiling(*k);
    push_linked_back(run, &times, b, c)?;
    push_linked(run, &ceiling, c, b)?;
    Ok(())
}

/// Adds the equations of `k` times `b` being `c`, for a `k` below 0: down one and up the other.
fn push_negative(
    run: &mut Vec<Equation>,
    k: &i128,
    b: &OrdInt,
    c: &OrdInt,
) -> Result<(), AllocError>
    requires k { (k.now <ℤ pos 0) × (unsigned_abs k.now < 2 ^ 100) }
    requires b { IsSound b.now }
    requires c { IsSound c.now }
    requires multiples { HasSmallMultiples k.now b.now }
    ensures { OnOk result (run.new.items
        ≡ run.old.items ++ map (equation_of Form) (negative_equations k.now b.now c.now)) }
{
    let times = Link::Times(*k);
    let over = Link::Over(*k);
    push_opposed_above(run, &times, b, c)?;
    push_opposed(run, &over, c, b)?;
    Ok(())
}

/// Adds the equations of `k` times `b` being `c`.
fn push_scaled(run: &mut Vec<Equation>, k: &i128, b: &OrdInt, c: &OrdInt) -> Result<(), AllocError>
    requires k { unsigned_abs k.now < 2 ^ 100 }
    requires b { IsSound b.now }
    requires c { IsSound c.now }
    requires multiples { HasSmallMultiples k.now b.now }
    ensures { OnOk result (run.new.items
        ≡ run.old.items ++ map (equation_of Form) (scaled_equations k.now b.now c.now)) }
{
    if 0 < *k {
        push_multiple(run, k, b, c)?;
    } else if *k < 0 {
        push_negative(run, k, b, c)?;
    }
    Ok(())
}

/// Adds those where `by` is constant.
fn push_scaled_by(
    run: &mut Vec<Equation>,
    by: &OrdInt,
    b: &OrdInt,
    c: &OrdInt,
) -> Result<(), AllocError>
    requires by { IsSound by.now }
    requires b { IsSound b.now }
    requires c { IsSound c.now }
    requires multiples { HasSmallMultiples (low_of by.now) b.now }
    ensures { OnOk result (run.new.items
        ≡ run.old.items
        ++ map (equation_of Form) (only_if (is_constant by.now) (scaled_equations (low_of by.now) b.now c.now))) }
{
    if is_constant(by) {
        let k = by.low();
        push_scaled(run, &k, b, c)?;
    }
    Ok(())
}

/// Adds the equations of `a` times `b` being `c`, where a factor is constant: by walks along the two others
/// side by side.
pub(crate) fn push_product(
    run: &mut Vec<Equation>,
    a: &OrdInt,
    b: &OrdInt,
    c: &OrdInt,
) -> Result<(), AllocError>
    requires a { IsSound a.now }
    requires b { IsSound b.now }
    requires c { IsSound c.now }
    requires products { HasSmallProducts a.now b.now }
    ensures { OnOk result (run.new.items
        ≡ run.old.items ++ map (equation_of Form) (prod_constants a.now b.now c.now)) }
{
    push_scaled_by(run, a, b, c)?;
    push_scaled_by(run, b, a, c)?;
    Ok(())
}
