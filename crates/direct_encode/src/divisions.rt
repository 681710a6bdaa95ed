//! The clauses of quotient and rest of two integers, over each pair of values.

ghost use Rattle.std.specs.Prelude.{◌≡◌, ◌++◌, ◌^◌, ◌<◌, ◌≤◌, ◌/◌, ◌%◌, pos};
ghost use Rattle.std.specs.Prelude.{◌≤ℤ◌, unsigned_abs, OnOk};
ghost use Rattle.order_ints.specs.OrderRange.{low_of};
ghost use Rattle.core_forms.specs.WellFormed.{IsSound};
ghost use Rattle.core_forms.specs.Shapes.{steps_of};
ghost use Rattle.direct_encode.specs.Tables.{row_clauses, quotient_at, rest_at, division_pair, div_mod_clauses};

use crate::products::push_at_pair;
use crate::sums::above;
use crate::table::Table;
use bee_list::Sequence;
use order_ints::{Atom, OrdInt};
use std::alloc::AllocError;

/// The quotient of two numbers without their signs.
fn divided(x: i128, y: i128) -> i128
    requires some { 0 < unsigned_abs y }
    requires range { unsigned_abs x < 2 ^ 100 }
    ensures value { result ≡ pos (unsigned_abs x / unsigned_abs y) }
    ensures range { unsigned_abs result < 2 ^ 100 }
{
    (x.unsigned_abs() / y.unsigned_abs()) as i128
}

/// The rest of two numbers without their signs.
fn left(x: i128, y: i128) -> i128
    requires some { 0 < unsigned_abs y }
    requires range { unsigned_abs x < 2 ^ 100 }
    ensures value { result ≡ pos (unsigned_abs x % unsigned_abs y) }
    ensures range { unsigned_abs result < 2 ^ 100 }
{
    (x.unsigned_abs() % y.unsigned_abs()) as i128
}

/// The quotient of the values at two places.
fn quotient(a: &Table<'_>, b: &Table<'_>, i: usize, j: usize) -> i128
    requires i { i ≤ steps_of a.now.int.now }
    requires j { j ≤ steps_of b.now.int.now }
    requires positive { pos 1 ≤ℤ low_of b.now.int.now }
    ensures value { result ≡ quotient_at a.now.int.now b.now.int.now i j }
    ensures range { unsigned_abs result < 2 ^ 100 }
{
    divided(a.value(i), b.value(j))
}

/// The rest of the values at two places.
fn rest(a: &Table<'_>, b: &Table<'_>, i: usize, j: usize) -> i128
    requires i { i ≤ steps_of a.now.int.now }
    requires j { j ≤ steps_of b.now.int.now }
    requires positive { pos 1 ≤ℤ low_of b.now.int.now }
    ensures value { result ≡ rest_at a.now.int.now b.now.int.now i j }
    ensures range { unsigned_abs result < 2 ^ 100 }
{
    left(a.value(i), b.value(j))
}

/// Puts the clauses of a pair of places behind others.
fn push_pair(
    clauses: &mut Vec<Sequence<Atom>>,
    a: &Table<'_>,
    b: &Table<'_>,
    q: &Table<'_>,
    r: &Table<'_>,
    i: usize,
    j: usize,
) -> Result<(), AllocError>
    requires i { i ≤ steps_of a.now.int.now }
    requires j { j ≤ steps_of b.now.int.now }
    requires positive { pos 1 ≤ℤ low_of b.now.int.now }
    ensures { OnOk result
        (clauses.new.items ≡ clauses.old.items
        ++ division_pair a.now.int.now b.now.int.now q.now.int.now r.now.int.now i j) }
{
    let (quotient, rest) = (quotient(a, b, i, j), rest(a, b, i, j));
    push_at_pair(clauses, a, b, i, j, q.at(quotient))?;
    push_at_pair(clauses, a, b, i, j, q.at(above(quotient)).not())?;
    push_at_pair(clauses, a, b, i, j, r.at(rest))?;
    push_at_pair(clauses, a, b, i, j, r.at(above(rest)).not())?;
    Ok(())
}

/// Puts the clauses of a place of `a` and each one of `b` behind others.
fn push_row(
    clauses: &mut Vec<Sequence<Atom>>,
    a: &Table<'_>,
    b: &Table<'_>,
    q: &Table<'_>,
    r: &Table<'_>,
    i: usize,
) -> Result<(), AllocError>
    requires i { i ≤ steps_of a.now.int.now }
    requires positive { pos 1 ≤ℤ low_of b.now.int.now }
    ensures { OnOk result
        (clauses.new.items ≡ clauses.old.items
        ++ row_clauses (division_pair a.now.int.now b.now.int.now q.now.int.now r.now.int.now)
        b.now.int.now i) }
{
    for j in 0..b.len() {
        push_pair(clauses, a, b, q, r, i, j)?;
    }
    Ok(())
}

/// Puts the clauses of each pair of places behind others.
fn push_rows(
    clauses: &mut Vec<Sequence<Atom>>,
    a: &Table<'_>,
    b: &Table<'_>,
    q: &Table<'_>,
    r: &Table<'_>,
) -> Result<(), AllocError>
    requires { pos 1 ≤ℤ low_of b.now.int.now }
    ensures { OnOk result
        (clauses.new.items ≡ clauses.old.items
        ++ div_mod_clauses a.now.int.now b.now.int.now q.now.int.now r.now.int.now) }
{
    for i in 0..a.len() {
        push_row(clauses, a, b, q, r, i)?;
    }
    Ok(())
}

/// Puts the clauses behind others that say: `q` and `r` are quotient and rest of `a` by `b`.
pub(crate) fn push_div_mod(
    clauses: &mut Vec<Sequence<Atom>>,
    a: &OrdInt,
    b: &OrdInt,
    q: &OrdInt,
    r: &OrdInt,
) -> Result<(), AllocError>
    requires a { IsSound a.now }
    requires b { IsSound b.now }
    requires q { IsSound q.now }
    requires r { IsSound r.now }
    requires positive { pos 1 ≤ℤ low_of b.now }
    ensures { OnOk result
        (clauses.new.items ≡ clauses.old.items ++ div_mod_clauses a.now b.now q.now r.now) }
{
    let alloc = *clauses.allocator();
    let (a, b) = (Table::of(alloc, a)?, Table::of(alloc, b)?);
    let (q, r) = (Table::of(alloc, q)?, Table::of(alloc, r)?);
    push_rows(clauses, &a, &b, &q, &r)
}
