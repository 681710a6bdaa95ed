//! The atoms and the integers of terms.

ghost use Rattle.std.specs.Prelude.{◌≡◌, IfOk, IfSome, map};
ghost use Rattle.order_ints.specs.Truth.{not_atom};
ghost use Rattle.order_ints.specs.OrderRange.{IsBounded};
ghost use Rattle.order_ints.specs.OrderChange.{negated_of};
ghost use Rattle.statement_lower.specs.Terms.{atom_of, atoms_of, integer_of, integers_of};
ghost use Rattle.statement_lower.specs.Entries.{AreInLimit};

use bee_list::Sequence;
use model_meaning::{BoolTerm, IntTerm};
use order_ints::{Atom, MapValue, OrdInt};
use std::alloc::{AllocError, Global};

/// The atom of a Boolean term.
pub fn atom_of(entries: &[MapValue], term: BoolTerm) -> Atom
    ensures { result ≡ atom_of entries.now term }
{
    match term {
        BoolTerm::Const(true) => Atom::True,
        BoolTerm::Const(false) => Atom::False,
        BoolTerm::Of { place, positive } => {
            let atom = match entries.get(place) {
                Some(MapValue::Bool(atom)) => *atom,
                _ => Atom::False,
            };
            if positive { atom } else { atom.not() }
        }
    }
}

/// The atoms of Boolean terms.
pub(crate) fn atoms_of(
    alloc: Global,
    entries: &[MapValue],
    terms: &[BoolTerm],
) -> Result<Sequence<Atom>, AllocError>
    ensures { IfOk result (λ atoms. atoms ≡ atoms_of entries.now terms.now) }
{
    let mut atoms = Vec::with_capacity(alloc, terms.len())?;
    for term in terms {
        atoms.push(atom_of(entries, *term))?;
    }
    Ok(Sequence::from_vec(atoms))
}

/// Atoms, negated.
pub(crate) fn negated_atoms(alloc: Global, atoms: &[Atom]) -> Result<Sequence<Atom>, AllocError>
    ensures { IfOk result (λ negated. negated ≡ map not_atom atoms.now) }
{
    let mut negated = Vec::with_capacity(alloc, atoms.len())?;
    for atom in atoms {
        negated.push(atom.not())?;
    }
    Ok(Sequence::from_vec(negated))
}

/// The integer of a term, lent, where a declared name stands for it.
pub(crate) fn lent_integer(entries: &[MapValue], term: IntTerm) -> Option<&OrdInt>
    ensures shape { IfSome result (λ a. a.now ≡ integer_of entries.now term) }
    ensures bounded { AreInLimit entries.now → IfSome result (λ a. IsBounded a.now) }
{
    let IntTerm::Of(place) = term else {
        return None;
    };
    match entries.get(place) {
        Some(MapValue::Int(int)) => Some(int),
        _ => None,
    }
}

/// The integer of an integer term, as its own.
pub(crate) fn integer_of(
    alloc: Global,
    entries: &[MapValue],
    term: IntTerm,
) -> Result<OrdInt, AllocError>
    ensures { IfOk result (λ a. a ≡ integer_of entries.now term) }
{
    match term {
        IntTerm::Number(number) => OrdInt::constant(alloc, i128::from(number)),
        IntTerm::Of(place) => match entries.get(place) {
            Some(MapValue::Int(integer)) => integer.clone(),
            _ => OrdInt::constant(alloc, 0),
        },
    }
}

/// The integer of an integer term, where those of the declared names are in the limit of numerals.
pub(crate) fn bounded_integer_of(
    alloc: Global,
    entries: &[MapValue],
    term: IntTerm,
) -> Result<OrdInt, AllocError>
    requires { AreInLimit entries.now }
    ensures shape { IfOk result (λ a. a ≡ integer_of entries.now term) }
    ensures bounded { IfOk result IsBounded }
{
    match term {
        IntTerm::Number(number) => OrdInt::constant(alloc, i128::from(number)),
        IntTerm::Of(_) => {
            let integer = integer_of(alloc, entries, term)?;
            Ok(integer)
        }
    }
}

/// Minus the integer of an integer term.
pub(crate) fn negated_integer_of(
    alloc: Global,
    entries: &[MapValue],
    term: IntTerm,
) -> Result<OrdInt, AllocError>
    requires { AreInLimit entries.now }
    ensures { IfOk result (λ a. a ≡ negated_of (integer_of entries.now term)) }
{
    match lent_integer(entries, term) {
        Some(int) => int.negated(),
        None => bounded_integer_of(alloc, entries, term)?.negated(),
    }
}

/// The integers of integer terms.
pub(crate) fn integers_of(
    alloc: Global,
    entries: &[MapValue],
    terms: &[IntTerm],
) -> Result<Sequence<OrdInt>, AllocError>
    ensures { IfOk result (λ ints. ints ≡ integers_of entries.now terms.now) }
{
    let mut ints = Vec::with_capacity(alloc, terms.len())?;
    for term in terms {
        ints.push(integer_of(alloc, entries, *term)?)?;
    }
    Ok(Sequence::from_vec(ints))
}

/// Minus the integers of integer terms.
pub(crate) fn negated_integers_of(
    alloc: Global,
    entries: &[MapValue],
    terms: &[IntTerm],
) -> Result<Sequence<OrdInt>, AllocError>
    requires { AreInLimit entries.now }
    ensures { IfOk result (λ ints. ints ≡ map negated_of (integers_of entries.now terms.now)) }
{
    let mut ints = Vec::with_capacity(alloc, terms.len())?;
    for term in terms {
        ints.push(negated_integer_of(alloc, entries, *term)?)?;
    }
    Ok(Sequence::from_vec(ints))
}
