//! The members of linear statements.

ghost use Rattle.std.specs.Prelude.{◌≡◌, ◌+◌, ◌<◌, ◌≤◌, ◌^◌, length, unsigned_abs, IfOk};
ghost use Rattle.order_ints.specs.OrderChange.{scaled_of};
ghost use Rattle.core_forms.specs.WellFormed.{AreSound, greatest_abs, abs_total};
ghost use Rattle.model_meaning.specs.Limits.{InLimit, AllInLimit, TermInLimit, TermsInLimit};
ghost use Rattle.statement_lower.specs.Terms.{integer_of};
ghost use Rattle.statement_lower.specs.Entries.{AreInLimit};
ghost use Rattle.statement_lower.specs.Linear.{with_steps, constant_of_members, linear_members, AreSummands};
ghost use Rattle.statement_lower.specs.Lines.{scaled_truths, scaled_integers};

use crate::terms::{atom_of, integer_of, lent_integer, negated_integer_of};
use model_meaning::{BoolTerm, IntTerm};
use order_ints::{MapValue, OrdInt};
use std::alloc::{AllocError, Global};

/// A multiple of an integer.
fn scaled(int: &OrdInt, coefficient: i64) -> Result<OrdInt, AllocError>
    requires int { greatest_abs int.now ≤ 1073741824 }
    requires coefficient { InLimit coefficient }
    ensures { IfOk result (λ a. a ≡ scaled_of int.now coefficient) }
{
    int.scaled(i128::from(coefficient))
}

/// A multiple of the integer of a term.
fn scaled_integer(
    alloc: Global,
    entries: &[MapValue],
    term: IntTerm,
    coefficient: i64,
) -> Result<OrdInt, AllocError>
    requires entries { AreInLimit entries.now }
    requires term { TermInLimit term }
    requires coefficient { InLimit coefficient }
    ensures { IfOk result (λ a. a ≡ scaled_of (integer_of entries.now term) coefficient) }
{
    match lent_integer(entries, term) {
        Some(int) => scaled(int, coefficient),
        None => {
            let constant = integer_of(alloc, entries, term)?;
            scaled(&constant, coefficient)
        }
    }
}

/// Booleans as integers, multiplied by their coefficients.
pub(crate) fn scaled_truths(
    alloc: Global,
    entries: &[MapValue],
    coefficients: &[i64],
    members: &[BoolTerm],
) -> Result<Vec<OrdInt>, AllocError>
    requires { AllInLimit coefficients.now }
    ensures { IfOk result (λ ints. ints.items ≡ scaled_truths entries.now coefficients.now members.now) }
{
    let mut ints = Vec::with_capacity(alloc, members.len())?;
    let both = coefficients.len().min(members.len());
    for i in 0..both {
        let bit = OrdInt::of_atom(alloc, atom_of(entries, members[i]))?;
        ints.push(scaled(&bit, coefficients[i])?)?;
    }
    Ok(ints)
}

/// The integers of terms, multiplied by their coefficients.
pub(crate) fn scaled_integers(
    alloc: Global,
    entries: &[MapValue],
    coefficients: &[i64],
    members: &[IntTerm],
) -> Result<Vec<OrdInt>, AllocError>
    requires entries { AreInLimit entries.now }
    requires coefficients { AllInLimit coefficients.now }
    requires members { TermsInLimit members.now }
    ensures { IfOk result (λ ints. ints.items ≡ scaled_integers entries.now coefficients.now members.now) }
{
    let mut ints = Vec::with_capacity(alloc, members.len())?;
    let both = coefficients.len().min(members.len());
    for i in 0..both {
        let int = scaled_integer(alloc, entries, members[i], coefficients[i])?;
        ints.push(int)?;
    }
    Ok(ints)
}

/// The members that have no step, which are constants, added up.
fn constant_of_members(ints: &[OrdInt]) -> i128
    requires members { AreSummands ints.now }
    requires few { length ints.now ≤ 16777217 }
    ensures value { result ≡ constant_of_members ints.now }
    ensures range { unsigned_abs result < 2 ^ 85 }
{
    let mut sum: i128 = 0;
    for int in ints {
        if int.steps.is_empty() {
            sum += int.base;
        }
    }
    sum
}

/// Keeps the members that have steps.
fn keep_with_steps(ints: &mut Vec<OrdInt>)
    ensures { ints.new.items ≡ with_steps ints.old.items }
{
    ints.retain(|int| !int.steps.is_empty());
}

/// The members of a linear statement that have steps, and the sum of the others.
#[derive(Drop)]
pub(crate) struct Summands {
    /// Those that have steps.
    pub(crate) ints: Vec<OrdInt>,
    /// The others, which are constants, added up.
    pub(crate) constant: i128,
}

/// The members of a linear statement: integers and, last, minus the right side.
pub(crate) fn linear_members(
    alloc: Global,
    entries: &[MapValue],
    ints: Vec<OrdInt>,
    right: IntTerm,
) -> Result<Summands, AllocError>
    requires entries { AreInLimit entries.now }
    requires ints { AreSummands ints.items }
    requires few { length ints.items ≤ 16777216 }
    requires right { TermInLimit right }
    ensures ints { IfOk result
        (λ s. s.ints.items ≡ with_steps (linear_members ints.items (integer_of entries.now right))) }
    ensures constant { IfOk result
        (λ s. s.constant ≡ constant_of_members (linear_members ints.items (integer_of entries.now right))) }
    ensures range { IfOk result (λ s. unsigned_abs s.constant < 2 ^ 85) }
    ensures sound { IfOk result (λ s. AreSound s.ints.items) }
    ensures limit { IfOk result (λ s. abs_total s.ints.items + unsigned_abs s.constant < 2 ^ 85) }
{
    let mut ints = ints;
    ints.push(negated_integer_of(alloc, entries, right)?)?;
    let constant = constant_of_members(&ints);
    keep_with_steps(&mut ints);
    Ok(Summands { ints, constant })
}
