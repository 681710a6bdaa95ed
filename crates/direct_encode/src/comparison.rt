//! The clauses that compare two integers, of which each is ordered: loops along the values of one
//! beside a walk along the other.

ghost use Rattle.std.specs.Prelude.{◌≡◌, ◌++◌, OnOk};
ghost use Rattle.core_forms.specs.WellFormed.{IsSound};
ghost use Rattle.direct_encode.specs.Comparisons.{reaching_clauses, exceeding_clauses, differing_clauses};

use crate::clause::push_clause;
use bee_list::Sequence;
use order_ints::{Atom, OrdInt, Walk};
use std::alloc::AllocError;

#[tactic(auto, using(crate::proofs::Beside::reaching_is))]
/// Puts the clauses behind others that say: where `r` is true, `a` is at most `b`.
pub(crate) fn push_reaching(
    clauses: &mut Vec<Sequence<Atom>>,
    r: Atom,
    a: &OrdInt,
    b: &OrdInt,
) -> Result<(), AllocError>
    requires a { IsSound a.now }
    requires b { IsSound b.now }
    ensures { OnOk result (clauses.new.items ≡ clauses.old.items ++ reaching_clauses r a.now b.now) }
{
    let mut walk = Walk::along(b);
    for (value, atom) in a.levels() {
        let reached = walk.at(value);
        push_clause(clauses, &[r.not(), atom.not(), reached])?;
    }
    Ok(())
}

#[tactic(auto, using(crate::proofs::Beside::exceeding_is))]
/// Puts the clauses behind others that say: where `r` is false, `a` is above `b`.
pub(crate) fn push_exceeding(
    clauses: &mut Vec<Sequence<Atom>>,
    r: Atom,
    a: &OrdInt,
    b: &OrdInt,
) -> Result<(), AllocError>
    requires a { IsSound a.now }
    requires b { IsSound b.now }
    ensures { OnOk result (clauses.new.items ≡ clauses.old.items ++ exceeding_clauses r a.now b.now) }
{
    let mut walk = Walk::along(a);
    for (value, atom) in b.levels() {
        let exceeded = walk.at(value + 1);
        push_clause(clauses, &[r, atom.not(), exceeded])?;
    }
    Ok(())
}

#[tactic(auto, using(crate::proofs::Beside::differing_is))]
/// Puts the clauses behind others that say: where `r` is false, `a` and `b` differ.
pub(crate) fn push_differing(
    clauses: &mut Vec<Sequence<Atom>>,
    r: Atom,
    a: &OrdInt,
    b: &OrdInt,
) -> Result<(), AllocError>
    requires a { IsSound a.now }
    requires b { IsSound b.now }
    ensures { OnOk result (clauses.new.items ≡ clauses.old.items ++ differing_clauses r a.now b.now) }
{
    let mut walk_a = Walk::along(a);
    let mut walk_b = Walk::along(b);
    for (value, a_reached) in a.levels() {
        if walk_b.has(value) {
            let b_reached = walk_b.at(value);
            let a_exceeded = walk_a.at(value + 1);
            let b_exceeded = walk_b.at(value + 1);
            push_clause(
                clauses,
                &[r, a_reached.not(), a_exceeded, b_reached.not(), b_exceeded],
            )?;
        }
    }
    Ok(())
}
