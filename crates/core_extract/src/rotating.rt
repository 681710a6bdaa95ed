//! From one assignment that a single statement of a part breaks to others, by another value for one name of that
//! statement (rotation: Belov and Marques-Silva, 2011).

ghost use Rattle.model_meaning.specs.Limits.{InLimits};

use crate::names::{names_of, value_at};
use crate::witnesses::Witnesses;
use bee_list::Sequence;
use model_meaning::{Assignment, Model, first_broken, in_domains};
use model_parts::first_broken_but;
use std::alloc::{AllocError, Global};

/// How many values of a name are tried.
const MOST_VALUES: u8 = 8;

/// How many names of a statement are tried.
const MOST_NAMES: usize = 32;

/// The number of the only statement that an assignment breaks.
fn only_broken(part: &Model, a: &Assignment) -> Option<u64>
    requires { InLimits part.now }
{
    if !in_domains(part, a) {
        return None;
    }
    match first_broken(part, a) {
        Some(number) if first_broken_but(part, number, a).is_none() => Some(number),
        _ => None,
    }
}

/// The names of the statement of a number.
fn names_at(alloc: Global, part: &Model, number: u64) -> Result<Vec<usize>, AllocError> {
    for stmt in part.stmts.as_slice() {
        if stmt.number == number {
            return names_of(alloc, &stmt.what);
        }
    }
    Ok(Vec::new(alloc))
}

/// An assignment with another value for a name.
fn changed(a: Assignment, name: usize, value: i64) -> Assignment {
    let mut values = a.values.into_vec();
    if name < values.len() {
        values[name] = value;
    }
    Assignment {
        values: Sequence::from_vec(values),
    }
}

/// An assignment that equals another one.
fn copied(alloc: Global, a: &Assignment) -> Result<Assignment, AllocError> {
    let values = Vec::from_slice(alloc, a.values.as_slice())?;
    Ok(Assignment {
        values: Sequence::from_vec(values),
    })
}

/// What is known of statements that are needed, and whose assignments are still to be changed.
#[derive(Drop)]
struct Rotation<'a> {
    numbers: &'a [u64],
    waiting: Vec<(u64, Assignment)>,
}

/// Keeps copies of an assignment that breaks a single statement, where none is known for it yet. The numbers ascend.
fn keep_new(
    alloc: Global,
    part: &Model,
    rotation: &mut Rotation<'_>,
    witnesses: &mut Witnesses,
    a: &Assignment,
) -> Result<bool, AllocError>
    requires { InLimits part.now }
{
    let Some(number) = only_broken(part, a) else {
        return Ok(false);
    };
    let Ok(place) = rotation.numbers.binary_search(&number) else {
        return Ok(false);
    };
    if witnesses.has(place) {
        return Ok(false);
    }
    rotation.waiting.push((number, copied(alloc, a)?))?;
    witnesses.put(place, copied(alloc, a)?);
    Ok(true)
}

/// Tries other values for a name, and gives the assignment back.
fn try_name(
    alloc: Global,
    part: &Model,
    rotation: &mut Rotation<'_>,
    witnesses: &mut Witnesses,
    a: Assignment,
    name: usize,
) -> Result<Assignment, AllocError>
    requires { InLimits part.now }
{
    let (Some(decl), Some(now)) = (
        part.decls.as_slice().get(name),
        a.values.as_slice().get(name).copied(),
    ) else {
        return Ok(a);
    };
    let mut tried = a;
    for turn in 0..MOST_VALUES {
        if let Some(value) = value_at(&decl.kind, now, turn) {
            tried = changed(tried, name, value);
            let _kept = keep_new(alloc, part, rotation, witnesses, &tried)?;
        }
    }
    Ok(changed(tried, name, now))
}

/// Tries the names of the statement that an assignment breaks.
fn try_names(
    alloc: Global,
    part: &Model,
    rotation: &mut Rotation<'_>,
    witnesses: &mut Witnesses,
    number: u64,
    a: Assignment,
) -> Result<(), AllocError>
    requires { InLimits part.now }
{
    let names = names_at(alloc, part, number)?;
    let mut a = a;
    for at in 0..MOST_NAMES {
        if at < names.len() {
            a = try_name(alloc, part, rotation, witnesses, a, names[at])?;
        }
    }
    Ok(())
}

/// Keeps an assignment that breaks a single statement of a part, and those that come of it by rotation; whether it
/// breaks one alone.
pub(crate) fn keep(
    alloc: Global,
    part: &Model,
    numbers: &[u64],
    witnesses: &mut Witnesses,
    a: Assignment,
) -> Result<bool, AllocError>
    requires { InLimits part.now }
{
    let mut rotation = Rotation {
        numbers,
        waiting: Vec::new(alloc),
    };
    let single = keep_new(alloc, part, &mut rotation, witnesses, &a)?;
    for _ in 0..numbers.len() {
        if let Some((number, next)) = rotation.waiting.pop() {
            try_names(alloc, part, &mut rotation, witnesses, number, next)?;
        }
    }
    Ok(single)
}
