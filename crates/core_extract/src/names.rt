//! Which names a statement speaks of, and which values a name may be tried at. Nothing is promised: they are tried.

use model_meaning::{BoolTerm, IntTerm, Kind, What, terms_or_none};
use std::alloc::{AllocError, Global};

/// Names are the places of their declarations.
fn push_truth(names: &mut Vec<usize>, term: &BoolTerm) -> Result<(), AllocError> {
    if let BoolTerm::Of { place, .. } = term {
        names.push(*place)?;
    }
    Ok(())
}

/// That of an integer, where it is no numeral.
fn push_number(names: &mut Vec<usize>, term: &IntTerm) -> Result<(), AllocError> {
    if let IntTerm::Of(place) = term {
        names.push(*place)?;
    }
    Ok(())
}

/// Those of a list of Booleans.
fn push_truths(names: &mut Vec<usize>, terms: &[BoolTerm]) -> Result<(), AllocError> {
    for term in terms {
        push_truth(names, term)?;
    }
    Ok(())
}

/// Those of a list of integers.
fn push_numbers(names: &mut Vec<usize>, terms: &[IntTerm]) -> Result<(), AllocError> {
    for term in terms {
        push_number(names, term)?;
    }
    Ok(())
}

/// Those of a statement on integers, and none of one on Booleans.
fn push_arithmetic(names: &mut Vec<usize>, what: &What) -> Result<(), AllocError> {
    match what {
        What::IntSum { members, bound, .. } | What::IntLinear { members, bound, .. } => {
            push_numbers(names, members.as_slice())?;
            push_number(names, bound)
        }
        What::IntArray { members, value, .. } => {
            push_numbers(names, members.as_slice())?;
            push_number(names, value)
        }
        What::IntOp {
            left,
            right,
            value,
            ..
        } => push_numbers(names, &[*left, *right, *value]),
        What::Absolute { operand, value } => push_numbers(names, &[*operand, *value]),
        What::Compare { left, right, .. } | What::CompareReified { left, right, .. } => {
            push_numbers(names, &[*left, *right])
        }
        What::IntAllDifferent { members, .. } => push_numbers(names, members.as_slice()),
        What::Lexicographic {
            left_truths,
            right_truths,
            left_numbers,
            right_numbers,
            ..
        } => {
            push_truths(names, terms_or_none(left_truths))?;
            push_truths(names, terms_or_none(right_truths))?;
            push_numbers(names, terms_or_none(left_numbers))?;
            push_numbers(names, terms_or_none(right_numbers))
        }
        What::BoolToInt { .. }
        | What::BoolEq { .. }
        | What::BoolOp { .. }
        | What::BoolArray { .. }
        | What::BoolArrayReified { .. }
        | What::BoolSum { .. }
        | What::BoolLinear { .. } => Ok(()),
    }
}

/// The names that a statement speaks of. The truth that it may tell of itself comes first, since by it the statement
/// holds again.
pub(crate) fn names_of(alloc: Global, what: &What) -> Result<Vec<usize>, AllocError> {
    let mut names = Vec::new(alloc);
    match what {
        What::BoolToInt { truth, number } => {
            push_truth(&mut names, truth)?;
            push_number(&mut names, number)?;
        }
        What::BoolEq { left, right } => push_truths(&mut names, &[*left, *right])?,
        What::BoolOp {
            left,
            right,
            truth,
            ..
        } => push_truths(&mut names, &[*truth, *left, *right])?,
        What::BoolArray { members, .. } => push_truths(&mut names, members.as_slice())?,
        What::BoolArrayReified { members, truth, .. } => {
            push_truth(&mut names, truth)?;
            push_truths(&mut names, members.as_slice())?;
        }
        What::CompareReified { truth, .. } => {
            push_truth(&mut names, truth)?;
            push_arithmetic(&mut names, what)?;
        }
        What::BoolSum { members, bound, .. } | What::BoolLinear { members, bound, .. } => {
            push_truths(&mut names, members.as_slice())?;
            push_number(&mut names, bound)?;
        }
        What::Compare { .. }
        | What::IntSum { .. }
        | What::IntLinear { .. }
        | What::IntOp { .. }
        | What::Absolute { .. }
        | What::IntArray { .. }
        | What::IntAllDifferent { .. }
        | What::Lexicographic { .. } => push_arithmetic(&mut names, what)?,
    }
    Ok(names)
}

/// A value that a name may be tried at in place of another one: one of the first few of its domain, counted by turns. A
/// Boolean has one, and of an integer the neighbours come first, and then the values from the least on.
pub(crate) fn value_at(kind: &Kind, now: i64, turn: u8) -> Option<i64> {
    match kind {
        Kind::Bool if turn == 0 => Some(if now == 0 { 1 } else { 0 }),
        Kind::Bool => None,
        Kind::Range { low, .. } => match turn {
            0 => now.checked_sub(1),
            1 => now.checked_add(1),
            _ => low.checked_add(i64::from(turn).saturating_sub(2)),
        },
        Kind::Listed { values } => values.as_slice().get(usize::from(turn)).copied(),
    }
}
