//! A clause of atoms put in order: resolved by a view, the literals by variable, none twice; nothing where it
//! is always true.

ghost use Rattle.std.specs.Prelude.{◌≡◌, IfOk, option_map, List};
ghost use Rattle.order_ints.specs.declared.literal.Lit.{Lit};
ghost use Rattle.order_ints.specs.OrderedClauses.{by_variable, has_opposites, resolved_lits, ordered_clause};

use crate::atom::Atom;
use crate::literal::Lit;
use crate::view::resolve;
use bee_list::Sequence;
use std::alloc::{AllocError, Global};

/// The literals of a clause as the view has them, in the clause's order; `None` where an atom is True.
fn resolved_literals(
    alloc: Global,
    view: &[Atom],
    clause: &[Atom],
) -> Result<Option<Vec<Lit>>, AllocError>
    ensures { IfOk result (λ lits. option_map (λ v. v.items) lits ≡ resolved_lits view.now clause.now) }
{
    let mut literals = Vec::with_capacity(alloc, clause.len())?;
    for atom in clause {
        match resolve(view, *atom) {
            Atom::True => return Ok(None),
            Atom::False => {}
            Atom::Of(literal) => literals.push(literal)?,
        }
    }
    Ok(Some(literals))
}

/// Puts literals in order, each once.
fn put_by_variable(literals: &mut Vec<Lit>)
    ensures { literals.new.items ≡ by_variable literals.old.items }
{
    literals.sort_unstable();
    literals.dedup();
}

/// Whether a literal and its negation are among literals in order. They are neighbours then.
fn has_opposite_neighbours(literals: &[Lit]) -> bool
    ensures { (ls : List Lit) → literals.now ≡ by_variable ls → result ≡ has_opposites literals.now }
{
    for i in 1..literals.len() {
        if literals[i - 1].var == literals[i].var {
            return true;
        }
    }
    false
}

/// A clause put in order; `None` where it is always true. It takes the time of one sort of its literals,
/// and memory for them alone.
pub fn ordered_clause(
    alloc: Global,
    view: &[Atom],
    clause: &[Atom],
) -> Result<Option<Sequence<Lit>>, AllocError>
    ensures { IfOk result (λ kept. kept ≡ ordered_clause view.now clause.now) }
{
    let Some(mut literals) = resolved_literals(alloc, view, clause)? else {
        return Ok(None);
    };
    put_by_variable(&mut literals);
    if has_opposite_neighbours(&literals) {
        return Ok(None);
    }
    literals.shrink_to_fit();
    Ok(Some(Sequence::from_vec(literals)))
}
