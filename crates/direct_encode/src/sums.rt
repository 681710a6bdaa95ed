//! The clauses of a sum of two integers, over each pair of values.

ghost use Rattle.std.specs.Prelude.{◌≡◌, ◌^◌, ◌<◌, ◌≤◌, ◌++◌, pos, ◌+ℤ◌, unsigned_abs};
ghost use Rattle.std.specs.Prelude.{OnOk};
ghost use Rattle.order_ints.specs.Truth.{not_atom};
ghost use Rattle.order_ints.specs.Walk.{value_at};
ghost use Rattle.core_forms.specs.WellFormed.{IsSound};
ghost use Rattle.core_forms.specs.Shapes.{steps_of};
ghost use Rattle.direct_encode.specs.Tables.{row_clauses, from_pair, up_to_pair, sum_reached, sum_exceeded};
ghost use Rattle.direct_encode.specs.Tables.{has_lower_neighbour, has_upper_neighbour, unless, sum_pair, sum3_clauses};

use crate::clause::push_clause;
use crate::table::Table;
use bee_list::Sequence;
use order_ints::{Atom, OrdInt};
use std::alloc::AllocError;

/// The sum of the values at two places.
fn sum(a: &Table<'_>, b: &Table<'_>, i: usize, j: usize) -> i128
    requires i { i ≤ steps_of a.now.int.now }
    requires j { j ≤ steps_of b.now.int.now }
    ensures value { result ≡ value_at a.now.int.now i +ℤ value_at b.now.int.now j }
    ensures range { unsigned_abs result < 2 ^ 101 }
{
    a.value(i) + b.value(j)
}

/// The next value.
pub(crate) fn above(value: i128) -> i128
    requires { unsigned_abs value < 2 ^ 101 }
    ensures value { result ≡ value +ℤ pos 1 }
    ensures range { unsigned_abs result < 2 ^ 102 }
{
    value + 1
}

/// The atom that is true where `c` is at least the sum of the values at two places.
fn reached(a: &Table<'_>, b: &Table<'_>, c: &Table<'_>, i: usize, j: usize) -> Atom
    requires i { i ≤ steps_of a.now.int.now }
    requires j { j ≤ steps_of b.now.int.now }
    ensures { result ≡ sum_reached a.now.int.now b.now.int.now c.now.int.now i j }
{
    c.at(a.value(i) + b.value(j))
}

/// The atom that is true where `c` is above that sum.
fn exceeded(a: &Table<'_>, b: &Table<'_>, c: &Table<'_>, i: usize, j: usize) -> Atom
    requires i { i ≤ steps_of a.now.int.now }
    requires j { j ≤ steps_of b.now.int.now }
    ensures { result ≡ sum_exceeded a.now.int.now b.now.int.now c.now.int.now i j }
{
    c.at(above(sum(a, b, i, j)))
}

/// Whether the place below on one side has this atom too.
fn is_reached_below(
    a: &Table<'_>,
    b: &Table<'_>,
    c: &Table<'_>,
    i: usize,
    j: usize,
    here: Atom,
) -> bool
    requires i { i ≤ steps_of a.now.int.now }
    requires j { j ≤ steps_of b.now.int.now }
    ensures { here ≡ sum_reached a.now.int.now b.now.int.now c.now.int.now i j
        → result ≡ has_lower_neighbour a.now.int.now b.now.int.now c.now.int.now i j }
{
    (0 < i && reached(a, b, c, i - 1, j) == here) || (0 < j && reached(a, b, c, i, j - 1) == here)
}

/// Whether the place above on one side has this atom too.
fn is_exceeded_above(
    a: &Table<'_>,
    b: &Table<'_>,
    c: &Table<'_>,
    i: usize,
    j: usize,
    here: Atom,
) -> bool
    requires i { i ≤ steps_of a.now.int.now }
    requires j { j ≤ steps_of b.now.int.now }
    ensures { here ≡ sum_exceeded a.now.int.now b.now.int.now c.now.int.now i j
        → result ≡ has_upper_neighbour a.now.int.now b.now.int.now c.now.int.now i j }
{
    (i < a.last() && exceeded(a, b, c, i + 1, j) == here)
        || (j < b.last() && exceeded(a, b, c, i, j + 1) == here)
}

/// Puts the clause behind others that says: from the values at the places on `c` is at least their sum.
fn push_from(
    clauses: &mut Vec<Sequence<Atom>>,
    a: &Table<'_>,
    b: &Table<'_>,
    c: &Table<'_>,
    i: usize,
    j: usize,
) -> Result<(), AllocError>
    requires i { i ≤ steps_of a.now.int.now }
    requires j { j ≤ steps_of b.now.int.now }
    ensures { OnOk result
        (clauses.new.items ≡ clauses.old.items
        ++ unless (has_lower_neighbour a.now.int.now b.now.int.now c.now.int.now i j)
        (from_pair a.now.int.now b.now.int.now i j
        (sum_reached a.now.int.now b.now.int.now c.now.int.now i j))) }
{
    let here = reached(a, b, c, i, j);
    if is_reached_below(a, b, c, i, j, here) {
        return Ok(());
    }
    push_clause(clauses, &[a.reached(i).not(), b.reached(j).not(), here])
}

/// Puts the clause behind others that says: up to the values at the places `c` is at most their sum.
fn push_up_to(
    clauses: &mut Vec<Sequence<Atom>>,
    a: &Table<'_>,
    b: &Table<'_>,
    c: &Table<'_>,
    i: usize,
    j: usize,
) -> Result<(), AllocError>
    requires i { i ≤ steps_of a.now.int.now }
    requires j { j ≤ steps_of b.now.int.now }
    ensures { OnOk result
        (clauses.new.items ≡ clauses.old.items
        ++ unless (has_upper_neighbour a.now.int.now b.now.int.now c.now.int.now i j)
        (up_to_pair a.now.int.now b.now.int.now i j
        (not_atom (sum_exceeded a.now.int.now b.now.int.now c.now.int.now i j)))) }
{
    let here = exceeded(a, b, c, i, j);
    if is_exceeded_above(a, b, c, i, j, here) {
        return Ok(());
    }
    push_clause(clauses, &[a.exceeded(i), b.exceeded(j), here.not()])
}

/// Puts the clauses of a pair of places behind others.
fn push_pair(
    clauses: &mut Vec<Sequence<Atom>>,
    a: &Table<'_>,
    b: &Table<'_>,
    c: &Table<'_>,
    i: usize,
    j: usize,
) -> Result<(), AllocError>
    requires i { i ≤ steps_of a.now.int.now }
    requires j { j ≤ steps_of b.now.int.now }
    ensures { OnOk result
        (clauses.new.items ≡ clauses.old.items
        ++ sum_pair a.now.int.now b.now.int.now c.now.int.now i j) }
{
    push_from(clauses, a, b, c, i, j)?;
    push_up_to(clauses, a, b, c, i, j)
}

/// Puts the clauses of a place of `a` and each one of `b` behind others.
fn push_row(
    clauses: &mut Vec<Sequence<Atom>>,
    a: &Table<'_>,
    b: &Table<'_>,
    c: &Table<'_>,
    i: usize,
) -> Result<(), AllocError>
    requires { i ≤ steps_of a.now.int.now }
    ensures { OnOk result
        (clauses.new.items ≡ clauses.old.items
        ++ row_clauses (sum_pair a.now.int.now b.now.int.now c.now.int.now) b.now.int.now i) }
{
    for j in 0..b.len() {
        push_pair(clauses, a, b, c, i, j)?;
    }
    Ok(())
}

/// Puts the clauses of each pair of places behind others.
fn push_rows(
    clauses: &mut Vec<Sequence<Atom>>,
    a: &Table<'_>,
    b: &Table<'_>,
    c: &Table<'_>,
) -> Result<(), AllocError>
    ensures { OnOk result
        (clauses.new.items ≡ clauses.old.items
        ++ sum3_clauses a.now.int.now b.now.int.now c.now.int.now) }
{
    for i in 0..a.len() {
        push_row(clauses, a, b, c, i)?;
    }
    Ok(())
}

/// Puts the clauses behind others that say: `c` is the sum of `a` and `b`.
pub(crate) fn push_sum3(
    clauses: &mut Vec<Sequence<Atom>>,
    a: &OrdInt,
    b: &OrdInt,
    c: &OrdInt,
) -> Result<(), AllocError>
    requires a { IsSound a.now }
    requires b { IsSound b.now }
    requires c { IsSound c.now }
    ensures { OnOk result (clauses.new.items ≡ clauses.old.items ++ sum3_clauses a.now b.now c.now) }
{
    let alloc = *clauses.allocator();
    let (a, b, c) = (
        Table::of(alloc, a)?,
        Table::of(alloc, b)?,
        Table::of(alloc, c)?,
    );
    push_rows(clauses, &a, &b, &c)
}
