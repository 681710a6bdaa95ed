//! One clause more.

ghost use Rattle.std.specs.Prelude.{◌≡◌, ◌∷◌, [], ◌++◌, OnOk};

use bee_list::Sequence;
use order_ints::Atom;
use std::alloc::AllocError;

/// Puts a clause behind others.
pub(crate) fn push_owned(
    clauses: &mut Vec<Sequence<Atom>>,
    clause: Vec<Atom>,
) -> Result<(), AllocError>
    ensures { OnOk result (clauses.new.items ≡ clauses.old.items ++ (clause.items ∷ [])) }
{
    clauses.push(Sequence::from_vec(clause))?;
    Ok(())
}

/// Puts the clause of some atoms behind others. Its list has room for them at once.
pub(crate) fn push_clause(
    clauses: &mut Vec<Sequence<Atom>>,
    atoms: &[Atom],
) -> Result<(), AllocError>
    ensures { OnOk result (clauses.new.items ≡ clauses.old.items ++ (atoms.now ∷ [])) }
{
    let alloc = *clauses.allocator();
    push_owned(clauses, Vec::from_slice(alloc, atoms)?)
}
