//! The parts of a model's text.

ghost use Rattle.std.specs.Prelude.{◌≡◌, ◌++◌, map, OnOk};
ghost use Rattle.std.specs.List.{flat_map};
ghost use Rattle.bumblebee_reader.specs.Canonical.{item_line, term_text, terms_text};
ghost use Rattle.bumblebee_reader.specs.declared.syntax.Term.TheVariants.{Number};
ghost use Rattle.opb_model.specs.Models.{variable_name};
ghost use Rattle.opb_model.specs.Items.{variable_item, coefficient_word, literal_word, constraint_item, cost_item};
ghost use Rattle.opb_model.specs.Items.{cost_items, goal_item};
ghost use Rattle.opb_model.specs.Written.{sum_front};

use crate::statements::sum_name;
use bee_text::{push_bytes, push_number, push_signed};
use opb_front::{Comparison, Constraint, Objective, Term};
use std::alloc::AllocError;

/// Appends the name of a variable.
pub(crate) fn push_variable_name(out: &mut Vec<u8>, index: u32) -> Result<(), AllocError>
    ensures { OnOk result (out.new.items ≡ out.old.items ++ variable_name index) }
{
    push_bytes(out, b"x")?;
    push_number(out, u128::from(index))
}

/// Appends the line that declares a variable.
pub(crate) fn push_variable(out: &mut Vec<u8>, index: u32) -> Result<(), AllocError>
    ensures { OnOk result (out.new.items ≡ out.old.items ++ item_line (variable_item index)) }
{
    push_bytes(out, b"new_bool(")?;
    push_variable_name(out, index)?;
    push_bytes(out, b")\n")
}

/// Appends a number.
fn push_value(out: &mut Vec<u8>, value: i64) -> Result<(), AllocError>
    ensures { OnOk result (out.new.items ≡ out.old.items ++ term_text (Number value)) }
{
    push_signed(out, i128::from(value))
}

/// Appends a coefficient.
fn push_coefficient(out: &mut Vec<u8>, term: &Term) -> Result<(), AllocError>
    ensures { OnOk result (out.new.items ≡ out.old.items ++ term_text (coefficient_word term.now)) }
{
    push_value(out, term.coefficient)
}

/// Appends the coefficients of a sum.
fn push_coefficients(out: &mut Vec<u8>, terms: &[Term]) -> Result<(), AllocError>
    ensures { OnOk result (out.new.items ≡ out.old.items ++ terms_text (map coefficient_word terms.now)) }
{
    let Some((first, others)) = terms.split_first() else {
        return Ok(());
    };
    push_coefficient(out, first)?;
    for term in others {
        push_bytes(out, b",")?;
        push_coefficient(out, term)?;
    }
    Ok(())
}

/// Appends a literal.
fn push_literal(out: &mut Vec<u8>, term: &Term) -> Result<(), AllocError>
    ensures { OnOk result (out.new.items ≡ out.old.items ++ term_text (literal_word term.now)) }
{
    if !term.literal.positive {
        push_bytes(out, b"-")?;
    }
    push_variable_name(out, term.literal.index)
}

/// Appends the literals of a sum.
fn push_literals(out: &mut Vec<u8>, terms: &[Term]) -> Result<(), AllocError>
    ensures { OnOk result (out.new.items ≡ out.old.items ++ terms_text (map literal_word terms.now)) }
{
    let Some((first, others)) = terms.split_first() else {
        return Ok(());
    };
    push_literal(out, first)?;
    for term in others {
        push_bytes(out, b",")?;
        push_literal(out, term)?;
    }
    Ok(())
}

/// Appends a sum up to what it is compared with.
fn push_sum_front(
    out: &mut Vec<u8>,
    comparison: Comparison,
    terms: &[Term],
) -> Result<(), AllocError>
    ensures { OnOk result (out.new.items ≡ out.old.items ++ sum_front comparison terms.now) }
{
    push_bytes(out, sum_name(comparison))?;
    push_bytes(out, b"([")?;
    push_coefficients(out, terms)?;
    push_bytes(out, b"],[")?;
    push_literals(out, terms)?;
    push_bytes(out, b"],")
}

#[tactic(auto, using(crate::proofs::Lines::sum_line))]
/// Appends the line of a constraint.
pub(crate) fn push_constraint(out: &mut Vec<u8>, constraint: &Constraint) -> Result<(), AllocError>
    ensures { OnOk result (out.new.items ≡ out.old.items ++ item_line (constraint_item constraint.now)) }
{
    push_sum_front(out, constraint.comparison, constraint.terms.as_slice())?;
    push_value(out, constraint.bound)?;
    push_bytes(out, b")\n")
}

/// Appends the line that declares the cost.
fn push_cost_integer(out: &mut Vec<u8>, objective: &Objective) -> Result<(), AllocError>
    ensures { OnOk result (out.new.items ≡ out.old.items ++ item_line (cost_item objective.now)) }
{
    push_bytes(out, b"new_int(o,")?;
    push_value(out, objective.low)?;
    push_bytes(out, b",")?;
    push_value(out, objective.high)?;
    push_bytes(out, b")\n")
}

/// Appends the lines of the objective, where there is one.
pub(crate) fn push_objective(
    out: &mut Vec<u8>,
    objective: &Option<Objective>,
) -> Result<(), AllocError>
    ensures { OnOk result (out.new.items ≡ out.old.items ++ flat_map item_line (cost_items objective.now)) }
{
    if let Some(sought) = objective {
        push_cost_integer(out, sought)?;
        push_sum_front(out, Comparison::Equal, sought.terms.as_slice())?;
        push_bytes(out, b"o)\n")?;
    }
    Ok(())
}

/// Appends the line that says what is sought.
pub(crate) fn push_goal(out: &mut Vec<u8>, objective: &Option<Objective>) -> Result<(), AllocError>
    ensures { OnOk result (out.new.items ≡ out.old.items ++ item_line (goal_item objective.now)) }
{
    match objective {
        Some(_) => push_bytes(out, b"solve minimize o\n"),
        None => push_bytes(out, b"solve satisfy\n"),
    }
}
