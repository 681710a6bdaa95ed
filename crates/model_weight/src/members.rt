//! The members of linear sums, as shapes of integers that have a step.

ghost use Rattle.std.specs.Prelude.{◌≡◌, ◌*◌, ◌^◌, ◌≤◌, ◌<◌, ◌++◌, ◌∷◌, [], length};
ghost use Rattle.std.specs.Prelude.{OnOk, IfOk};
ghost use Rattle.core_cost.specs.Sums.{spans_of};
ghost use Rattle.model_meaning.specs.Limits.{AllInLimit, DeclsInLimit};
ghost use Rattle.model_weight.specs.Linear.{scaled, scaled_truths, scaled_numbers, numbers, with_steps};

use crate::shapes::shape_in;
use core_cost::Shape;
use model_meaning::{BoolTerm, Decl, IntTerm};
use std::alloc::{AllocError, Global};

/// An integer times a coefficient.
fn scaled(coefficient: i64, shape: Shape) -> Shape
    requires span { shape.span < 2 ^ 64 }
    requires divisor { shape.divisor < 2 ^ 64 }
    ensures { result ≡ scaled coefficient shape }
{
    if coefficient == 0 {
        return Shape::constant();
    }
    let factor = u128::from(coefficient.unsigned_abs());
    Shape {
        steps: shape.steps,
        span: factor * shape.span,
        divisor: factor * shape.divisor,
    }
}

/// Adds a member, unless it has no step.
pub(crate) fn add_member(members: &mut Vec<Shape>, member: Shape) -> Result<(), AllocError>
    ensures { OnOk result (members.new.items ≡ members.old.items ++ with_steps (member ∷ [])) }
{
    if member.steps != 0 {
        members.push(member)?;
    }
    Ok(())
}

/// The Booleans that have steps, times their coefficients.
pub(crate) fn scaled_truths(
    alloc: Global,
    coefficients: &[i64],
    members: &[BoolTerm],
) -> Result<Vec<Shape>, AllocError>
    requires { AllInLimit coefficients.now }
    ensures shapes { IfOk result (λ shapes. shapes.items ≡ with_steps (scaled_truths coefficients.now members.now)) }
    ensures spans { IfOk result (λ shapes. spans_of shapes.items ≤ 2 ^ 61 * length members.now) }
{
    let mut shapes = Vec::with_capacity(alloc, members.len())?;
    let both = coefficients.len().min(members.len());
    for i in 0..both {
        add_member(&mut shapes, scaled(coefficients[i], Shape::units(1)))?;
    }
    Ok(shapes)
}

/// The integers that have steps, times their coefficients.
pub(crate) fn scaled_numbers(
    alloc: Global,
    decls: &[Decl],
    coefficients: &[i64],
    members: &[IntTerm],
) -> Result<Vec<Shape>, AllocError>
    requires decls { DeclsInLimit decls.now }
    requires coefficients { AllInLimit coefficients.now }
    ensures shapes { IfOk result (λ shapes. shapes.items
        ≡ with_steps (scaled_numbers decls.now coefficients.now members.now)) }
    ensures spans { IfOk result (λ shapes. spans_of shapes.items ≤ 2 ^ 61 * length members.now) }
{
    let mut shapes = Vec::with_capacity(alloc, members.len())?;
    let both = coefficients.len().min(members.len());
    for i in 0..both {
        add_member(
            &mut shapes,
            scaled(coefficients[i], shape_in(decls, members[i])),
        )?;
    }
    Ok(shapes)
}

/// The integers that have steps.
pub(crate) fn numbers(
    alloc: Global,
    decls: &[Decl],
    members: &[IntTerm],
) -> Result<Vec<Shape>, AllocError>
    requires { DeclsInLimit decls.now }
    ensures shapes { IfOk result (λ shapes. shapes.items ≡ with_steps (numbers decls.now members.now)) }
    ensures spans { IfOk result (λ shapes. spans_of shapes.items ≤ 2 ^ 61 * length members.now) }
{
    let mut shapes = Vec::with_capacity(alloc, members.len())?;
    for member in members {
        add_member(&mut shapes, shape_in(decls, *member))?;
    }
    Ok(shapes)
}
