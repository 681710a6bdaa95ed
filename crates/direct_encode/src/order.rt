//! The clauses that say that an integer is ordered.

ghost use Rattle.std.specs.Prelude.{◌≡◌, ◌++◌, OnOk};
ghost use Rattle.direct_encode.specs.Orders.{order_clauses, orders_of};

use crate::clause::push_clause;
use bee_list::Sequence;
use order_ints::{Atom, OrdInt};
use std::alloc::AllocError;

/// Puts the clauses of an integer's order behind others: for each two neighbouring steps upwards, that
/// the lower one is true or the upper one is not.
pub(crate) fn push_order(clauses: &mut Vec<Sequence<Atom>>, a: &OrdInt) -> Result<(), AllocError>
    ensures { OnOk result (clauses.new.items ≡ clauses.old.items ++ order_clauses a.now) }
{
    let Some((first, above)) = a.steps.as_slice().split_first() else {
        return Ok(());
    };
    let mut lower = first.0;
    for step in above {
        push_clause(clauses, &[lower, step.0.not()])?;
        lower = step.0;
    }
    Ok(())
}

/// Puts the clauses of the order of two integers behind others.
pub(crate) fn push_orders(
    clauses: &mut Vec<Sequence<Atom>>,
    a: &OrdInt,
    b: &OrdInt,
) -> Result<(), AllocError>
    ensures { OnOk result
        (clauses.new.items ≡ clauses.old.items ++ (order_clauses a.now ++ order_clauses b.now)) }
{
    push_order(clauses, a)?;
    push_order(clauses, b)
}

/// Puts the clauses of the order of each integer behind others.
pub(crate) fn push_orders_of(
    clauses: &mut Vec<Sequence<Atom>>,
    ints: &[OrdInt],
) -> Result<(), AllocError>
    ensures { OnOk result (clauses.new.items ≡ clauses.old.items ++ orders_of ints.now) }
{
    let mut rest = ints;
    while let Some((a, others)) = rest.split_first() {
        push_order(clauses, a)?;
        rest = others;
    }
    Ok(())
}

/// Puts the clauses of the order of three integers behind others.
pub(crate) fn push_three_orders(
    clauses: &mut Vec<Sequence<Atom>>,
    a: &OrdInt,
    b: &OrdInt,
    c: &OrdInt,
) -> Result<(), AllocError>
    ensures { OnOk result
        (clauses.new.items ≡ clauses.old.items
        ++ (order_clauses a.now ++ (order_clauses b.now ++ order_clauses c.now))) }
{
    push_order(clauses, a)?;
    push_orders(clauses, b, c)
}
