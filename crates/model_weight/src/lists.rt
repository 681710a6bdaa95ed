//! The numbers of steps of lists of terms.

ghost use Rattle.std.specs.Prelude.{◌≡◌, IfOk};
ghost use Rattle.std.specs.List.{zip};
ghost use Rattle.model_weight.specs.Shapes.{all_steps};
ghost use Rattle.model_weight.specs.Statements.{truth_steps};

use crate::shapes::steps_in;
use model_meaning::{BoolTerm, Decl, IntTerm};
use std::alloc::{AllocError, Global};

/// The numbers of steps of integer terms.
pub(crate) fn all_steps(
    alloc: Global,
    decls: &[Decl],
    terms: &[IntTerm],
) -> Result<Vec<u128>, AllocError>
    ensures { IfOk result (λ steps. steps.items ≡ all_steps decls.now terms.now) }
{
    let mut steps = Vec::with_capacity(alloc, terms.len())?;
    for term in terms {
        steps.push(steps_in(decls, *term))?;
    }
    Ok(steps)
}

/// The pairs of the numbers of steps of two lists of integer terms.
pub(crate) fn pairs_of_steps(
    alloc: Global,
    decls: &[Decl],
    left: &[IntTerm],
    right: &[IntTerm],
) -> Result<Vec<(u128, u128)>, AllocError>
    ensures { IfOk result
        (λ pairs. pairs.items ≡ zip (all_steps decls.now left.now) (all_steps decls.now right.now)) }
{
    let mut pairs = Vec::with_capacity(alloc, left.len())?;
    let both = left.len().min(right.len());
    for i in 0..both {
        pairs.push((steps_in(decls, left[i]), steps_in(decls, right[i])))?;
    }
    Ok(pairs)
}

/// The pairs of the numbers of steps of two lists of Booleans.
pub(crate) fn pairs_of_truths(
    alloc: Global,
    left: &[BoolTerm],
    right: &[BoolTerm],
) -> Result<Vec<(u128, u128)>, AllocError>
    ensures { IfOk result (λ pairs. pairs.items ≡ zip (truth_steps left.now) (truth_steps right.now)) }
{
    let mut pairs = Vec::with_capacity(alloc, left.len())?;
    let both = left.len().min(right.len());
    for i in 0..both {
        pairs.push((1, 1))?;
    }
    Ok(pairs)
}
