//! Words of a text, numbers, and atoms: `T`, `F`, or a variable, with a minus sign where it is negated. A list has
//! commas between its members; the empty one is `none`.

ghost use Rattle.std.specs.Prelude.{◌≤◌, unsigned_abs, IfOk};

use bee_list::Sequence;
use bee_text::read_signed;
use ledger_text::read_atom;
use order_ints::Atom;
use std::alloc::Global;
use std::io::{Error, ErrorKind, Result};

/// The error of a word that tells nothing at its place.
pub(crate) fn misread(word: &str) -> Error {
    Error::new(ErrorKind::InvalidInput, word)
}

/// The word at a place of a text, or an empty one. Words have single blanks between them.
pub fn word(text: &str, place: usize) -> &str {
    text.split(' ').nth(place).unwrap_or("")
}

/// A number from -100 to 100; `InvalidInput` where the word is none.
pub fn number(word: &str) -> Result<i128>
    ensures { IfOk result (λ n. unsigned_abs n ≤ 100) }
{
    match read_signed(word.as_bytes(), 100) {
        Some(number) => Ok(number),
        None => Err(misread(word)),
    }
}

/// An atom; `InvalidInput` where the word is none.
pub fn atom(word: &str) -> Result<Atom> {
    match read_atom(word.as_bytes()) {
        Some(atom) => Ok(atom),
        None => Err(misread(word)),
    }
}

/// A list of atoms; `InvalidInput` where a member is none.
pub fn atoms(alloc: Global, word: &str) -> Result<Sequence<Atom>> {
    let mut atoms = Vec::new(alloc);
    for member in word.split(',') {
        if member != "none" {
            atoms.push(atom(member)?)?;
        }
    }
    Ok(Sequence::from_vec(atoms))
}
