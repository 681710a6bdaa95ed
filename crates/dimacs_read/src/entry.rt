//! Reads the line of a declared name.

ghost use Rattle.std.specs.Prelude.{◌≡◌, ◌∷◌, [], ℕ, List, codes, map, MatchOption, IfOk, unsigned_abs};
ghost use Rattle.std.specs.Prelude.{pos, ◌+ℤ◌, ◌≤◌, ◌^◌, ◌+◌};
ghost use Rattle.std.specs.Fmt.{signed_decimal};
ghost use Rattle.order_ints.specs.declared.atom.Atom.{Atom};
ghost use Rattle.order_ints.specs.declared.order_int.OrdInt.{OrdInt};
ghost use Rattle.order_ints.specs.declared.order_int.MapValue.{MapValue};
ghost use Rattle.order_ints.specs.Place.{AtomBelow};
ghost use Rattle.ledger_text.specs.Words.{atom_word};
ghost use Rattle.bumblebee_reader.specs.Names.{IsDeclarable};
ghost use Rattle.name_map.specs.declared.entries.MapEntry.{MapEntry};
ghost use Rattle.dimacs_out.specs.CompiledText.{step_word, entry_line};
ghost use Rattle.dimacs_read.specs.declared.entry.Kind.{Kind};
ghost use Rattle.dimacs_read.specs.Entries.{kind_word, kind_of, tail_words, IsReadableInt, IsReadableValue};
ghost use Rattle.dimacs_read.specs.TextLines.{IsReadableEntry};

use crate::name::is_declarable;
use crate::steps::{Steps, read_steps};
use bee_list::Sequence;
use bee_text::{Words, is, read_signed, split_words};
use bumblebee_reader::Name;
use ledger_text::read_atom;
use name_map::MapEntry;
use order_ints::{Atom, MapValue, OrdInt};
use std::alloc::{AllocError, Global};

/// The greatest absolute value of an integer's least and greatest value.
const LIMIT: u128 = 1 << 30;

/// What a name stands for.
#[derive(Clone, Copy)]
enum Kind {
    /// An atom.
    Bool,
    /// An integer.
    Int,
}

/// The kind that a word names.
fn read_kind(word: &[u8]) -> Option<Kind>
    ensures { MatchOption result ((k : Kind) → word.now ≡ kind_word k → ⊥) (λ k. word.now ≡ kind_word k) }
{
    if is(word, b"bool") {
        Some(Kind::Bool)
    } else if is(word, b"int") {
        Some(Kind::Int)
    } else {
        None
    }
}

/// Takes the words with which the line of a name begins, and the name.
fn read_head<'a>(words: &mut Words<'a>) -> Option<(Kind, &'a [u8])>
    ensures { MatchOption result
        ((k : Kind) (name : List ℕ) (rest : List (List ℕ)) → IsDeclarable name
        → words.old ≡ codes "c" ∷ kind_word k ∷ name ∷ rest → ⊥)
        (λ h. IsDeclarable h.1.now × (words.old ≡ codes "c" ∷ kind_word h.0 ∷ h.1.now ∷ words.new)) }
{
    if !is(words.next_word()?, b"c") {
        return None;
    }
    let kind = read_kind(words.next_word()?)?;
    let name = words.next_word()?;
    if is_declarable(name) {
        Some((kind, name))
    } else {
        None
    }
}

/// The atom that the one word spells that is left.
fn read_bool(words: &mut Words<'_>) -> Option<Atom>
    ensures { MatchOption result ((a : Atom) → AtomBelow (2 ^ 27 + 1) a → words.old ≡ atom_word a ∷ [] → ⊥)
        (λ a. AtomBelow (2 ^ 27 + 1) a × (words.old ≡ atom_word a ∷ [])) }
{
    let atom = read_atom(words.next_word()?)?;
    match words.next_word() {
        None => Some(atom),
        Some(_) => None,
    }
}

/// The integer, if its greatest value is in the limit.
fn limited(integer: OrdInt, total: u128) -> Option<OrdInt>
    requires base { unsigned_abs integer.base ≤ 2 ^ 30 }
    requires total { total ≤ 2 ^ 31 }
    ensures { MatchOption result (2 ^ 30 + 1 ≤ unsigned_abs (integer.base +ℤ pos total))
        (λ a. (unsigned_abs (integer.base +ℤ pos total) ≤ 2 ^ 30) × (a ≡ integer)) }
{
    if (integer.base + total as i128).unsigned_abs() > LIMIT {
        return None;
    }
    Some(integer)
}

/// The integer that the words spell that are left.
fn read_int(alloc: Global, words: &mut Words<'_>) -> Result<Option<OrdInt>, AllocError>
    ensures { IfOk result
        (λ found. MatchOption found ((a : OrdInt) → IsReadableInt a
        → words.old ≡ signed_decimal a.base ∷ map step_word a.steps → ⊥)
        (λ a. IsReadableInt a × (words.old ≡ signed_decimal a.base ∷ map step_word a.steps))) }
{
    let Some(word) = words.next_word() else {
        return Ok(None);
    };
    let Some(base) = read_signed(word, LIMIT) else {
        return Ok(None);
    };
    let Some(found) = read_steps(alloc, words)? else {
        return Ok(None);
    };
    let Steps { steps, total } = found;
    let steps = Sequence::from_vec(steps);
    Ok(limited(OrdInt { base, steps }, total))
}

/// What the words spell that are left, as what a name of this kind stands for.
fn read_value(
    alloc: Global,
    kind: Kind,
    words: &mut Words<'_>,
) -> Result<Option<MapValue>, AllocError>
    ensures { IfOk result
        (λ found. MatchOption found ((v : MapValue) → kind_of v ≡ kind → IsReadableValue v
        → words.old ≡ tail_words v → ⊥)
        (λ v. (kind_of v ≡ kind) × IsReadableValue v × (words.old ≡ tail_words v))) }
{
    match kind {
        Kind::Bool => match read_bool(words) {
            Some(atom) => Ok(Some(MapValue::Bool(atom))),
            None => Ok(None),
        },
        Kind::Int => match read_int(alloc, words)? {
            Some(integer) => Ok(Some(MapValue::Int(integer))),
            None => Ok(None),
        },
    }
}

/// The name whose line the bytes are, and what it stands for.
pub(crate) fn read_entry(alloc: Global, line: &[u8]) -> Result<Option<MapEntry>, AllocError>
    ensures { IfOk result
        (λ found. MatchOption found ((e : MapEntry) → IsReadableEntry e → line.now ≡ entry_line e → ⊥)
        (λ e. IsReadableEntry e × (line.now ≡ entry_line e))) }
{
    let mut words = split_words(line);
    let Some((kind, name)) = read_head(&mut words) else {
        return Ok(None);
    };
    let found = read_value(alloc, kind, &mut words)?;
    match found {
        Some(value) => {
            let name = Name::from_slice(alloc, name)?;
            Ok(Some(MapEntry { name, value }))
        }
        None => Ok(None),
    }
}
