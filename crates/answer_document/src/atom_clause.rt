//! The clause of an atom.

ghost use Rattle.std.specs.Prelude.{◌≡◌, ◌++◌, IfOk};
ghost use Rattle.answer_document.specs.Valid.{atom_clauses};

use bee_list::Sequence;
use order_ints::{Atom, Lit};
use std::alloc::{AllocError, Global};

/// Clauses, and behind them that of an atom: none of True, the empty one of False, and else that of its literal alone.
pub fn with_atom(
    alloc: Global,
    clauses: Sequence<Sequence<Lit>>,
    atom: Atom,
) -> Result<Sequence<Sequence<Lit>>, AllocError>
    ensures { IfOk result (λ all. all ≡ clauses ++ atom_clauses atom) }
{
    let mut all = clauses.into_vec();
    match atom {
        Atom::True => Ok(Sequence::from_vec(all)),
        Atom::False => {
            all.push(Sequence::from_vec(Vec::new(alloc)))?;
            Ok(Sequence::from_vec(all))
        }
        Atom::Of(literal) => {
            all.push(Sequence::from_vec(vec![in alloc; literal]?))?;
            Ok(Sequence::from_vec(all))
        }
    }
}
