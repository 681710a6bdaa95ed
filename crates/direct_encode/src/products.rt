//! The clauses of a product of two integers, over each pair of values.

ghost use Rattle.std.specs.Prelude.{◌≡◌, ◌∷◌, [], ◌++◌, ◌^◌, ◌<◌, ◌≤◌, ◌*ℤ◌};
ghost use Rattle.std.specs.Prelude.{unsigned_abs, OnOk};
ghost use Rattle.order_ints.specs.OrderRange.{low_of};
ghost use Rattle.core_forms.specs.WellFormed.{IsSound, HasSmallProducts};
ghost use Rattle.core_forms.specs.Shapes.{steps_of};
ghost use Rattle.direct_encode.specs.Tables.{row_clauses, at_pair, product_at, are_natural, product_pair, prod_clauses};
ghost use Rattle.direct_encode.specs.Products.{natural_pair, signed_pair};

use crate::clause::push_clause;
use crate::sums::above;
use crate::table::Table;
use bee_list::Sequence;
use order_ints::{Atom, OrdInt};
use std::alloc::AllocError;

/// A product.
fn times(x: i128, y: i128) -> i128
    requires { unsigned_abs (x *ℤ y) < 2 ^ 100 }
    ensures { result ≡ x *ℤ y }
{
    x * y
}

/// The product of the values at two places.
fn product(a: &Table<'_>, b: &Table<'_>, i: usize, j: usize) -> i128
    requires i { i ≤ steps_of a.now.int.now }
    requires j { j ≤ steps_of b.now.int.now }
    requires small { HasSmallProducts a.now.int.now b.now.int.now }
    ensures value { result ≡ product_at a.now.int.now b.now.int.now i j }
    ensures range { unsigned_abs result < 2 ^ 100 }
{
    times(a.value(i), b.value(j))
}

/// Whether no value of either is negative.
fn are_natural(a: &Table<'_>, b: &Table<'_>) -> bool
    ensures { result ≡ are_natural a.now.int.now b.now.int.now }
{
    0 <= a.low() && 0 <= b.low()
}

/// Puts the clause behind others that says: where both integers have the values at two places, `x`.
pub(crate) fn push_at_pair(
    clauses: &mut Vec<Sequence<Atom>>,
    a: &Table<'_>,
    b: &Table<'_>,
    i: usize,
    j: usize,
    x: Atom,
) -> Result<(), AllocError>
    requires i { i ≤ steps_of a.now.int.now }
    requires j { j ≤ steps_of b.now.int.now }
    ensures { OnOk result
        (clauses.new.items ≡ clauses.old.items ++ (at_pair a.now.int.now b.now.int.now i j x ∷ [])) }
{
    push_clause(
        clauses,
        &[
            a.reached(i).not(),
            a.exceeded(i),
            b.reached(j).not(),
            b.exceeded(j),
            x,
        ],
    )
}

/// Puts the clauses of a pair of places behind others, where no value is negative: from the values at
/// the places on, and up to them.
fn push_natural(
    clauses: &mut Vec<Sequence<Atom>>,
    a: &Table<'_>,
    b: &Table<'_>,
    c: &Table<'_>,
    i: usize,
    j: usize,
) -> Result<(), AllocError>
    requires i { i ≤ steps_of a.now.int.now }
    requires j { j ≤ steps_of b.now.int.now }
    requires small { HasSmallProducts a.now.int.now b.now.int.now }
    ensures { OnOk result
        (clauses.new.items ≡ clauses.old.items ++ natural_pair a.now.int.now b.now.int.now c.now.int.now i j) }
{
    let product = product(a, b, i, j);
    push_clause(
        clauses,
        &[a.reached(i).not(), b.reached(j).not(), c.at(product)],
    )?;
    push_clause(
        clauses,
        &[a.exceeded(i), b.exceeded(j), c.at(above(product)).not()],
    )?;
    Ok(())
}

/// Puts the clauses of a pair of places behind others, at the values at the places alone.
fn push_signed(
    clauses: &mut Vec<Sequence<Atom>>,
    a: &Table<'_>,
    b: &Table<'_>,
    c: &Table<'_>,
    i: usize,
    j: usize,
) -> Result<(), AllocError>
    requires i { i ≤ steps_of a.now.int.now }
    requires j { j ≤ steps_of b.now.int.now }
    requires small { HasSmallProducts a.now.int.now b.now.int.now }
    ensures { OnOk result
        (clauses.new.items ≡ clauses.old.items ++ signed_pair a.now.int.now b.now.int.now c.now.int.now i j) }
{
    let product = product(a, b, i, j);
    push_at_pair(clauses, a, b, i, j, c.at(product))?;
    push_at_pair(clauses, a, b, i, j, c.at(above(product)).not())?;
    Ok(())
}

/// Puts the clauses of a pair of places behind others.
fn push_pair(
    clauses: &mut Vec<Sequence<Atom>>,
    a: &Table<'_>,
    b: &Table<'_>,
    c: &Table<'_>,
    i: usize,
    j: usize,
) -> Result<(), AllocError>
    requires i { i ≤ steps_of a.now.int.now }
    requires j { j ≤ steps_of b.now.int.now }
    requires small { HasSmallProducts a.now.int.now b.now.int.now }
    ensures { OnOk result
        (clauses.new.items ≡ clauses.old.items ++ product_pair a.now.int.now b.now.int.now c.now.int.now i j) }
{
    if are_natural(a, b) {
        return push_natural(clauses, a, b, c, i, j);
    }
    push_signed(clauses, a, b, c, i, j)
}

/// Puts the clauses of a place of `a` and each one of `b` behind others.
fn push_row(
    clauses: &mut Vec<Sequence<Atom>>,
    a: &Table<'_>,
    b: &Table<'_>,
    c: &Table<'_>,
    i: usize,
) -> Result<(), AllocError>
    requires i { i ≤ steps_of a.now.int.now }
    requires small { HasSmallProducts a.now.int.now b.now.int.now }
    ensures { OnOk result
        (clauses.new.items ≡ clauses.old.items
        ++ row_clauses (product_pair a.now.int.now b.now.int.now c.now.int.now) b.now.int.now i) }
{
    for j in 0..b.len() {
        push_pair(clauses, a, b, c, i, j)?;
    }
    Ok(())
}

/// Puts the clauses of each pair of places behind others.
fn push_rows(
    clauses: &mut Vec<Sequence<Atom>>,
    a: &Table<'_>,
    b: &Table<'_>,
    c: &Table<'_>,
) -> Result<(), AllocError>
    requires { HasSmallProducts a.now.int.now b.now.int.now }
    ensures { OnOk result
        (clauses.new.items ≡ clauses.old.items
        ++ prod_clauses a.now.int.now b.now.int.now c.now.int.now) }
{
    for i in 0..a.len() {
        push_row(clauses, a, b, c, i)?;
    }
    Ok(())
}

/// Puts the clauses behind others that say: `c` is the product of `a` and `b`.
pub(crate) fn push_prod(
    clauses: &mut Vec<Sequence<Atom>>,
    a: &OrdInt,
    b: &OrdInt,
    c: &OrdInt,
) -> Result<(), AllocError>
    requires a { IsSound a.now }
    requires b { IsSound b.now }
    requires c { IsSound c.now }
    requires small { HasSmallProducts a.now b.now }
    ensures { OnOk result (clauses.new.items ≡ clauses.old.items ++ prod_clauses a.now b.now c.now) }
{
    let alloc = *clauses.allocator();
    let (a, b, c) = (
        Table::of(alloc, a)?,
        Table::of(alloc, b)?,
        Table::of(alloc, c)?,
    );
    push_rows(clauses, &a, &b, &c)
}
