//! Literals, as words spell them and as atoms.

ghost use Rattle.std.specs.Prelude.{◌≡◌, ◌+◌, ◌≤◌, ◌^◌, Some, IfOk, IfSome, map};
ghost use Rattle.order_ints.specs.declared.literal.Lit.{Lit};
ghost use Rattle.order_ints.specs.declared.atom.Atom.TheVariants.{Of};
ghost use Rattle.order_ints.specs.Place.{LitBelow};
ghost use Rattle.ledger_text.specs.Words.{literal_word};

use ledger_text::read_literal;
use order_ints::{Atom, Lit};
use std::alloc::{AllocError, Global};

/// The literal that a word spells, where its variable is at most `vars`.
pub fn literal_within(word: &[u8], vars: u32) -> Option<Lit>
    requires { vars ≤ 2 ^ 27 }
    ensures read { IfSome result (λ l. LitBelow (vars + 1) l × (word.now ≡ literal_word l)) }
    ensures complete { (l : Lit) → LitBelow (vars + 1) l → word.now ≡ literal_word l → result ≡ Some l }
{
    let literal = read_literal(word)?;
    if literal.var() <= vars {
        Some(literal)
    } else {
        None
    }
}

/// The atoms of literals.
pub fn atoms_of(alloc: Global, literals: &[Lit]) -> Result<Vec<Atom>, AllocError>
    ensures { IfOk result (λ atoms. atoms.items ≡ map Of literals.now) }
{
    let mut atoms = Vec::with_capacity(alloc, literals.len())?;
    for literal in literals {
        atoms.push(Atom::Of(*literal))?;
    }
    Ok(atoms)
}
