//! The marks of the values of members, and those of each value taken together.

ghost use Rattle.std.specs.Prelude.{◌≡◌, ◌+◌, ◌^◌, ◌<◌, ◌≤◌, ◌++◌, ℤ, IfOk, OnOk, length};
ghost use Rattle.std.specs.Prelude.{map};
ghost use Rattle.std.specs.List.{dedup};
ghost use Rattle.std.specs.List.Sorted.{IsPermutation, IsSorted};
ghost use Rattle.std.specs.Ordering.{int_cmp, int_eq};
ghost use Rattle.order_ints.specs.OrderLevels.{values_of};
ghost use Rattle.core_forms.specs.WellFormed.{IsSound, AreSound};
ghost use Rattle.decompose.specs.DifferingParts.{all_values, marks_from, marked};
ghost use Rattle.decompose.specs.MarksByValue.{marked_values, leading, grouped, groups_of};

use bee_list::Sequence;
use order_ints::{Atom, OrdInt};
use part_base::fresh_atom;
use std::alloc::{AllocError, Global};

/// Puts the values of a member behind others.
fn put_values(values: &mut Vec<i128>, a: &OrdInt) -> Result<(), AllocError>
    requires { IsSound a.now }
    ensures { OnOk result (values.new.items ≡ values.old.items ++ values_of a.now) }
{
    for (value, _) in a.levels() {
        values.push(value)?;
    }
    Ok(())
}

/// The values of each member, one member after another.
pub(crate) fn all_values(alloc: Global, ints: &[OrdInt]) -> Result<Vec<i128>, AllocError>
    requires { AreSound ints.now }
    ensures { IfOk result (λ values. values.items ≡ all_values ints.now) }
{
    let mut values = Vec::new(alloc);
    let mut rest = ints;
    while let Some((a, others)) = rest.split_first() {
        put_values(&mut values, a)?;
        rest = others;
    }
    Ok(values)
}

/// The values with their marks.
pub(crate) fn marks(
    alloc: Global,
    values: &[i128],
    next_var: u32,
) -> Result<Vec<(i128, Atom)>, AllocError>
    requires { next_var + length values.now < 2 ^ 32 }
    ensures { IfOk result (λ marks. marks.items ≡ marks_from next_var values.now) }
{
    let mut marks = Vec::with_capacity(alloc, values.len())?;
    let mut var = next_var;
    for value in values {
        marks.push((*value, fresh_atom(var)))?;
        var += 1;
    }
    Ok(marks)
}

/// Puts marks in the order of their values. Those of one value stay in the order that they have.
fn sort_by_value(marks: &mut Vec<(i128, Atom)>) -> Result<(), AllocError>
    ensures permutation { OnOk result
        (IsPermutation (marked_values marks.old.items) (marked_values marks.new.items)) }
    ensures sorted { OnOk result (IsSorted int_cmp (marked_values marks.new.items)) }
    ensures marked { OnOk result ((v : ℤ) → marked v marks.new.items ≡ marked v marks.old.items) }
{
    marks.sort_by_key(|mark| mark.0)?;
    Ok(())
}

/// The values of marks, of which equal ones stand together, each once.
fn different_values(alloc: Global, marks: &[(i128, Atom)]) -> Result<Vec<i128>, AllocError>
    ensures { IfOk result (λ values. values.items ≡ dedup int_eq (marked_values marks.now)) }
{
    let mut values = Vec::with_capacity(alloc, marks.len())?;
    for mark in marks {
        values.push(mark.0)?;
    }
    values.dedup();
    Ok(values)
}

/// The atoms of the marks in front that have a value.
fn leading(alloc: Global, value: i128, marks: &[(i128, Atom)]) -> Result<Vec<Atom>, AllocError>
    ensures atoms { IfOk result (λ atoms. atoms.items ≡ leading value marks.now) }
    ensures few { IfOk result (λ atoms. length atoms.items ≤ length marks.now) }
{
    let mut atoms = Vec::new(alloc);
    for mark in marks {
        if mark.0 != value {
            return Ok(atoms);
        }
        atoms.push(mark.1)?;
    }
    Ok(atoms)
}

/// For each of the values in turn the atoms of its marks, which follow on those of the value before.
fn grouped(
    alloc: Global,
    values: &[i128],
    marks: &[(i128, Atom)],
) -> Result<Vec<Sequence<Atom>>, AllocError>
    ensures { IfOk result (λ groups. groups.items ≡ grouped values.now marks.now) }
{
    let mut groups = Vec::with_capacity(alloc, values.len())?;
    let mut rest = marks;
    for value in values {
        let atoms = leading(alloc, *value, rest)?;
        let (_, behind) = rest.split_at(atoms.len());
        rest = behind;
        groups.push(Sequence::from_vec(atoms))?;
    }
    Ok(groups)
}

/// For each value upwards the atoms of its marks, in time linear in the marks but for one sort.
pub(crate) fn groups(
    alloc: Global,
    marks: Vec<(i128, Atom)>,
) -> Result<Vec<Sequence<Atom>>, AllocError>
    ensures { IfOk result (λ groups. groups.items ≡ groups_of marks.items) }
{
    let mut marks = marks;
    sort_by_value(&mut marks)?;
    let values = different_values(alloc, marks.as_slice())?;
    grouped(alloc, values.as_slice(), marks.as_slice())
}
