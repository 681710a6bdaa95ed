//! How many cores a statement is lowered to, by the table of statements. What is told of a model counts only
//! where all numbers together are that of its cores.

use model_meaning::{AllDifferent, IntTerm, Operator, Relation, What};
use order_ints::MapValue;

/// Whether a sum in this relation is a core of its own.
fn is_equality(relation: Relation) -> bool {
    match relation {
        Relation::Eq => true,
        _ => false,
    }
}

/// Whether a term has more than one value.
fn has_steps(entries: &[MapValue], term: IntTerm) -> bool {
    let IntTerm::Of(place) = term else {
        return false;
    };
    match entries.get(place) {
        Some(MapValue::Int(int)) => !int.steps.is_empty(),
        _ => false,
    }
}

/// How many terms have more than one value.
fn open_terms(entries: &[MapValue], terms: &[IntTerm]) -> usize {
    let mut count: usize = 0;
    for term in terms {
        if has_steps(entries, *term) {
            count = count.saturating_add(1);
        }
    }
    count
}

/// How many terms with a coefficient other than 0 have more than one value.
fn open_multiples(entries: &[MapValue], coefficients: &[i64], terms: &[IntTerm]) -> usize {
    let mut count: usize = 0;
    for i in 0..coefficients.len().min(terms.len()) {
        if coefficients[i] != 0 && has_steps(entries, terms[i]) {
            count = count.saturating_add(1);
        }
    }
    count
}

/// How many coefficients aren't 0.
fn multiples(coefficients: &[i64], members: usize) -> usize {
    let mut count: usize = 0;
    for i in 0..coefficients.len().min(members) {
        if coefficients[i] != 0 {
            count = count.saturating_add(1);
        }
    }
    count
}

/// The cores of a sum of so many members and its right side: in another relation than equality all but two are added
/// up first.
fn sum_cores(entries: &[MapValue], relation: Relation, members: usize, right: IntTerm) -> usize {
    if is_equality(relation) {
        return 1;
    }
    let right = if has_steps(entries, right) { 1 } else { 0 };
    members.saturating_add(right).saturating_sub(1).max(1)
}

/// The pairs of so many members, and one.
fn pairs_and_one(members: usize) -> usize {
    (members.saturating_mul(members.saturating_sub(1)) / 2).saturating_add(1)
}

/// The cores of a statement on a sum.
fn linear_cores(entries: &[MapValue], what: &What) -> usize {
    match what {
        What::BoolLinear {
            relation,
            coefficients,
            members,
            bound,
            ..
        } => {
            let count = multiples(coefficients.as_slice(), members.len());
            sum_cores(entries, *relation, count, *bound)
        }
        What::IntSum {
            relation,
            members,
            bound,
            ..
        } => {
            let count = open_terms(entries, members.as_slice());
            sum_cores(entries, *relation, count, *bound)
        }
        What::IntLinear {
            relation,
            coefficients,
            members,
            bound,
            ..
        } => {
            let count = open_multiples(entries, coefficients.as_slice(), members.as_slice());
            sum_cores(entries, *relation, count, *bound)
        }
        _ => 1,
    }
}

/// How many cores a statement is lowered to, where declared names stand for these entries.
pub(crate) fn core_count(entries: &[MapValue], what: &What) -> usize {
    match what {
        What::BoolArray {
            operator: Operator::Iff,
            members,
            ..
        } => members.len().saturating_sub(1),
        What::BoolOp {
            operator: Operator::Iff,
            ..
        }
        | What::BoolArrayReified {
            operator: Operator::Iff,
            ..
        } => 3,
        What::BoolSum { relation, .. } => { if is_equality(*relation) { 1 } else { 2 } }
        What::IntAllDifferent {
            kind: AllDifferent::Reified,
            members,
            ..
        } => pairs_and_one(members.len()),
        _ => linear_cores(entries, what),
    }
}
