//! The words of literals and atoms.

ghost use Rattle.std.specs.Prelude.{◌≡◌, ◌↔◌, ◌++◌, ◌∷◌, drop, OnOk, IfSome, Some, IsTrue};
ghost use Rattle.std.specs.Fmt.{decimal};
ghost use Rattle.order_ints.specs.declared.literal.Lit.{Lit};
ghost use Rattle.order_ints.specs.declared.atom.Atom.{Atom};
ghost use Rattle.ledger_text.specs.Words.{literal_word, atom_word, IsReadable, IsReadableAtom};

use bee_text::{is, push_bytes, read_number};
use itoa::Buffer;
use order_ints::{Atom, Lit};
use std::alloc::AllocError;

/// The greatest variable.
const GREATEST: u128 = 1 << 27;

/// Appends a variable with its sign.
pub fn push_literal(out: &mut Vec<u8>, literal: Lit) -> Result<(), AllocError>
    ensures { OnOk result (out.new.items ≡ out.old.items ++ literal_word literal) }
{
    if !literal.positive() {
        out.push(b'-')?;
    }
    let mut buffer = Buffer::new();
    push_bytes(out, buffer.format(literal.var()).as_bytes())
}

/// Appends an atom.
pub fn push_atom(out: &mut Vec<u8>, atom: Atom) -> Result<(), AllocError>
    ensures { OnOk result (out.new.items ≡ out.old.items ++ atom_word atom) }
{
    match atom {
        Atom::True => push_bytes(out, b"T"),
        Atom::False => push_bytes(out, b"F"),
        Atom::Of(literal) => push_literal(out, literal),
    }
}

/// The literal over a variable whose decimal the digits are.
fn read_variable(digits: &[u8], positive: bool) -> Option<Lit>
    ensures read { IfSome result (λ l. IsReadable l × (digits.now ≡ decimal l.var) × (l.positive ≡ positive)) }
    ensures complete { (l : Lit) → IsReadable l → l.positive ≡ positive → digits.now ≡ decimal l.var
        → result ≡ Some l }
{
    let var = read_number(digits, GREATEST)?;
    if var == 0 {
        return None;
    }
    Some(Lit::of(var as u32, positive))
}

/// The literal that a word spells: a variable from 1 to 2^27, behind `-` for its negation.
pub fn read_literal(word: &[u8]) -> Option<Lit>
    ensures read { IfSome result (λ l. IsReadable l × (word.now ≡ literal_word l)) }
    ensures complete { (l : Lit) → IsReadable l → word.now ≡ literal_word l → result ≡ Some l }
{
    if has_minus(word) {
        read_variable(&word[1..], false)
    } else {
        read_variable(word, true)
    }
}

/// Whether a word begins with a minus sign.
fn has_minus(word: &[u8]) -> bool
    ensures { IsTrue result ↔ (word.now ≡ 45 ∷ drop 1 word.now) }
{
    !word.is_empty() && word[0] == b'-'
}

/// The atom that a word spells: `T`, `F` or a literal.
pub fn read_atom(word: &[u8]) -> Option<Atom>
    ensures read { IfSome result (λ a. IsReadableAtom a × (word.now ≡ atom_word a)) }
    ensures complete { (a : Atom) → IsReadableAtom a → word.now ≡ atom_word a → result ≡ Some a }
{
    if is(word, b"T") {
        Some(Atom::True)
    } else if is(word, b"F") {
        Some(Atom::False)
    } else {
        let literal = read_literal(word)?;
        Some(Atom::Of(literal))
    }
}
