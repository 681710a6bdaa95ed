//! What the model of a file states.

ghost use Rattle.std.specs.Prelude.{◌≡◌, ◌≤◌, ◌<◌, ◌^◌, ◌+◌, ◌++◌, length, map, IfOk, OnOk};
ghost use Rattle.opb_front.specs.Fits.{TermsFit};
ghost use Rattle.opb_model.specs.Models.{relation_of, sum_name, coefficients, member, members, sum, cost_stmts};
ghost use Rattle.opb_model.specs.Models.{constraint_stmts, first_constraint};

use bee_list::Sequence;
use bumblebee_reader::Name;
use model_meaning::{BoolTerm, IntTerm, Relation, Stmt, What};
use opb_front::{Comparison, Constraint, Objective, Term};
use std::alloc::{AllocError, Global};

/// The relation of a comparison.
fn relation_of(comparison: Comparison) -> Relation
    ensures { result ≡ relation_of comparison }
{
    match comparison {
        Comparison::AtLeast => Relation::Geq,
        Comparison::AtMost => Relation::Leq,
        Comparison::Equal => Relation::Eq,
    }
}

/// The name of the statement that compares a sum so.
pub(crate) fn sum_name(comparison: Comparison) -> &'static [u8]
    ensures { result.now ≡ sum_name comparison }
{
    match comparison {
        Comparison::AtLeast => b"bool_array_pb_geq",
        Comparison::AtMost => b"bool_array_pb_leq",
        Comparison::Equal => b"bool_array_pb_eq",
    }
}

/// The coefficients of a sum.
fn coefficients(alloc: Global, terms: &[Term]) -> Result<Sequence<i64>, AllocError>
    ensures { IfOk result (λ numbers. numbers ≡ coefficients terms.now) }
{
    let mut numbers = Vec::with_capacity(alloc, terms.len())?;
    for term in terms {
        numbers.push(term.coefficient)?;
    }
    Ok(Sequence::from_vec(numbers))
}

/// The literal of a term, by the place of its variable.
fn member(term: &Term) -> BoolTerm
    ensures { result ≡ member term.now }
{
    BoolTerm::Of {
        place: (term.literal.index as usize).saturating_sub(1),
        positive: term.literal.positive,
    }
}

/// The literals of a sum.
fn members(alloc: Global, terms: &[Term]) -> Result<Sequence<BoolTerm>, AllocError>
    ensures { IfOk result (λ literals. literals ≡ members terms.now) }
{
    let mut literals = Vec::with_capacity(alloc, terms.len())?;
    for term in terms {
        literals.push(member(term))?;
    }
    Ok(Sequence::from_vec(literals))
}

/// That a sum stands so to a number or to the cost.
fn sum(
    alloc: Global,
    number: u64,
    comparison: Comparison,
    terms: &[Term],
    bound: IntTerm,
) -> Result<Stmt, AllocError>
    ensures { IfOk result (λ stmt. stmt ≡ sum number comparison terms.now bound) }
{
    let name = Name::from_slice(alloc, sum_name(comparison))?;
    let coefficients = coefficients(alloc, terms)?;
    let members = members(alloc, terms)?;
    Ok(Stmt {
        number,
        what: What::BoolLinear {
            name,
            relation: relation_of(comparison),
            coefficients,
            members,
            bound,
        },
    })
}

/// Adds that the cost is the sum of the objective, where there is one.
fn push_cost(
    alloc: Global,
    stmts: &mut Vec<Stmt>,
    vars: u32,
    objective: &Option<Objective>,
) -> Result<(), AllocError>
    ensures { OnOk result (stmts.new.items ≡ stmts.old.items ++ cost_stmts (vars + 2) vars objective.now) }
{
    if let Some(sought) = objective {
        let number = u64::from(vars) + 2;
        let place = IntTerm::Of(vars as usize);
        let stmt = sum(
            alloc,
            number,
            Comparison::Equal,
            sought.terms.as_slice(),
            place,
        )?;
        stmts.push(stmt)?;
    }
    Ok(())
}

/// Adds the constraints, from a number on.
fn push_constraints(
    alloc: Global,
    stmts: &mut Vec<Stmt>,
    first: u64,
    constraints: &[Constraint],
) -> Result<(), AllocError>
    requires { first < 2 ^ 33 }
    ensures { OnOk result (stmts.new.items ≡ stmts.old.items ++ constraint_stmts first constraints.now) }
{
    let mut number = first;
    for constraint in constraints {
        let bound = IntTerm::Number(constraint.bound);
        let stmt = sum(
            alloc,
            number,
            constraint.comparison,
            constraint.terms.as_slice(),
            bound,
        )?;
        stmts.push(stmt)?;
        number += 1;
    }
    Ok(())
}

/// The number of the first constraint's item.
fn first_constraint(vars: u32, objective: &Option<Objective>) -> u64
    ensures { result ≡ first_constraint vars objective.now }
{
    match objective {
        Some(_) => u64::from(vars) + 3,
        None => u64::from(vars) + 1,
    }
}

/// The statements of a file's model.
pub(crate) fn statements(
    alloc: Global,
    vars: u32,
    objective: &Option<Objective>,
    constraints: &[Constraint],
) -> Result<Vec<Stmt>, AllocError>
    ensures { IfOk result (λ stmts. stmts.items ≡ cost_stmts (vars + 2) vars objective.now
        ++ constraint_stmts (first_constraint vars objective.now) constraints.now) }
{
    let mut stmts = Vec::new(alloc);
    push_cost(alloc, &mut stmts, vars, objective)?;
    push_constraints(
        alloc,
        &mut stmts,
        first_constraint(vars, objective),
        constraints,
    )?;
    Ok(stmts)
}
