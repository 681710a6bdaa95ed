//! The arguments of a statement, in their order: one view of all lines of the table.

ghost use Rattle.std.specs.Prelude.{◌≡◌, ◌∷◌, []};
ghost use Rattle.std.specs.Option.{option_map};
ghost use Rattle.model_meaning.specs.Arguments.{Truth, Truths, Numbers, argument, arguments, arguments_of};

use crate::what::{BoolTerm, IntTerm, What};
use bee_list::{Apart, Sequence};

/// An argument, whose members a list lends.
#[derive(Clone, Copy)]
pub enum Argument<'a> {
    /// A Boolean term.
    Truth(BoolTerm),
    /// An integer term.
    Number(IntTerm),
    /// A list of Boolean terms.
    Truths(&'a [BoolTerm]),
    /// A list of integer terms.
    Numbers(&'a [IntTerm]),
    /// A list of numerals.
    Numerals(&'a [i64]),
}

/// A Boolean term that may be left out.
fn truth_if(truth: &Option<Apart<BoolTerm>>) -> Option<Argument<'_>>
    ensures { option_map argument result ≡ option_map Truth truth.now }
{
    match truth {
        Some(term) => Some(Argument::Truth(*term.get())),
        None => None,
    }
}

/// A list of Boolean terms that may be left out.
fn truths_if(list: &Option<Apart<Sequence<BoolTerm>>>) -> Option<Argument<'_>>
    ensures { option_map argument result ≡ option_map Truths list.now }
{
    match list {
        Some(members) => Some(Argument::Truths(members.get().as_slice())),
        None => None,
    }
}

/// A list of integer terms that may be left out.
fn numbers_if(list: &Option<Apart<Sequence<IntTerm>>>) -> Option<Argument<'_>>
    ensures { option_map argument result ≡ option_map Numbers list.now }
{
    match list {
        Some(members) => Some(Argument::Numbers(members.get().as_slice())),
        None => None,
    }
}

/// One argument.
fn one(first: Argument<'_>) -> [Option<Argument<'_>>; 5]
    ensures { arguments result ≡ argument first.entry ∷ [] }
{
    [Some(first), None, None, None, None]
}

/// Two arguments.
fn two<'a>(first: Argument<'a>, second: Argument<'a>) -> [Option<Argument<'a>>; 5]
    ensures { arguments result ≡ argument first.entry ∷ argument second.entry ∷ [] }
{
    [Some(first), Some(second), None, None, None]
}

/// Three arguments.
fn three<'a>(
    first: Argument<'a>,
    second: Argument<'a>,
    third: Argument<'a>,
) -> [Option<Argument<'a>>; 5]
    ensures { arguments result ≡ argument first.entry ∷ argument second.entry ∷ argument third.entry ∷ [] }
{
    [Some(first), Some(second), Some(third), None, None]
}

/// The arguments of a statement; `None` where one is left out.
pub fn arguments_of(what: &What) -> [Option<Argument<'_>>; 5]
    ensures { arguments result ≡ arguments_of what.now }
{
    match what {
        What::BoolToInt { truth, number } => two(
            Argument::Truth(*truth),
            Argument::Number(*number),
        ),
        What::BoolEq { left, right } => two(Argument::Truth(*left), Argument::Truth(*right)),
        What::BoolOp {
            left,
            right,
            truth,
            ..
        } => three(
            Argument::Truth(*left),
            Argument::Truth(*right),
            Argument::Truth(*truth),
        ),
        What::BoolArray { members, .. } => one(Argument::Truths(members.as_slice())),
        What::BoolArrayReified { members, truth, .. } => {
            two(
                Argument::Truths(members.as_slice()),
                Argument::Truth(*truth),
            )
        }
        What::Compare { left, right, .. } => two(Argument::Number(*left), Argument::Number(*right)),
        What::CompareReified {
            left,
            right,
            truth,
            ..
        } => three(
            Argument::Number(*left),
            Argument::Number(*right),
            Argument::Truth(*truth),
        ),
        What::BoolSum { members, bound, .. } => {
            two(
                Argument::Truths(members.as_slice()),
                Argument::Number(*bound),
            )
        }
        What::BoolLinear {
            coefficients,
            members,
            bound,
            ..
        } => three(
            Argument::Numerals(coefficients.as_slice()),
            Argument::Truths(members.as_slice()),
            Argument::Number(*bound),
        ),
        What::IntSum { members, bound, .. } => {
            two(
                Argument::Numbers(members.as_slice()),
                Argument::Number(*bound),
            )
        }
        What::IntLinear {
            coefficients,
            members,
            bound,
            ..
        } => three(
            Argument::Numerals(coefficients.as_slice()),
            Argument::Numbers(members.as_slice()),
            Argument::Number(*bound),
        ),
        What::IntOp {
            left,
            right,
            value,
            ..
        } => three(
            Argument::Number(*left),
            Argument::Number(*right),
            Argument::Number(*value),
        ),
        What::Absolute { operand, value } => two(
            Argument::Number(*operand),
            Argument::Number(*value),
        ),
        What::IntArray { members, value, .. } => {
            two(
                Argument::Numbers(members.as_slice()),
                Argument::Number(*value),
            )
        }
        What::IntAllDifferent {
            members,
            truth,
            conditions,
            ..
        } => [
            Some(Argument::Numbers(members.as_slice())),
            truth_if(truth),
            truths_if(conditions),
            None,
            None,
        ],
        What::Lexicographic {
            left_truths,
            right_truths,
            left_numbers,
            right_numbers,
            truth,
            ..
        } => [
            truths_if(left_truths),
            truths_if(right_truths),
            numbers_if(left_numbers),
            numbers_if(right_numbers),
            truth_if(truth),
        ],
    }
}
