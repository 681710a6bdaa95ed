//! A statement with assignments under which it holds, and under which it doesn't.

use crate::typed::model;
use bee_list::Sequence;
use model_meaning::{Assignment, Model, first_broken, holds, in_domains, in_limits};
use std::alloc::Global;
use std::process::Abort;
use std::test::Fail;

/// Declarations, a statement, and two lists of assignments, which `;` divides: the statement holds under those of
/// the first list, and not under those of the second. An assignment is its values in the order of the declarations.
pub(super) type Row = (&'static str, &'static str, &'static str, &'static str);

/// The assignment of some values.
pub(super) fn assignment(alloc: Global, numbers: &str) -> Result<Assignment, Fail> {
    let mut values = Vec::new(alloc);
    for word in numbers.split_whitespace() {
        values.push(word.parse::<i64>()?)?;
    }
    Ok(Assignment {
        values: Sequence::from_vec(values),
    })
}

/// Whether the one statement of a model holds; `None` where there is none, or a value isn't in its domain.
fn truth(model: &Model, a: &Assignment) -> Option<bool> {
    if model.stmts.len() != 1 || !in_limits(model) || !in_domains(model, a) {
        return None;
    }
    let truth = holds(model, 0, a);
    if truth != first_broken(model, a).is_none() {
        return None;
    }
    Some(truth)
}

/// Asserts that the one statement of a model has a truth under each of some assignments.
fn each(
    rt: &impl Abort,
    alloc: Global,
    model: &Model,
    line: &str,
    assignments: &str,
    want: bool,
) -> Result<(), Fail> {
    for numbers in assignments.split(';') {
        if !numbers.is_empty() {
            let found = truth(model, &assignment(alloc, numbers)?);
            assert_eq!(rt; found, Some(want), "{line} at {numbers}");
        }
    }
    Ok(())
}

/// Asserts the rows.
pub(super) fn hold(rt: &impl Abort, alloc: Global, rows: &[Row]) -> Result<(), Fail> {
    for (declarations, line, met, unmet) in rows {
        let text = format!(in alloc; "{declarations} {line} solve satisfy")?;
        let model = model(alloc, text.as_str())?;
        each(rt, alloc, &model, line, met, true)?;
        each(rt, alloc, &model, line, unmet, false)?;
    }
    Ok(())
}
