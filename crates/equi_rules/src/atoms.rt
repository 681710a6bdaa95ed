//! The equations that the forms over lists of atoms state.

ghost use Rattle.std.specs.Prelude.{◌≡◌, ◌<◌, length, IfSome};
ghost use Rattle.rule_base.specs.Pairs.{first_sought};
ghost use Rattle.equi_rules.specs.AtomRows.{clause_equations, parity_equations, conjunction_equations, conj_equations};
ghost use Rattle.equi_rules.specs.AtomRows.{amo_equations, place_of_true};

use order_ints::Atom;
use rule_base::SoughtEquation;

/// The equations of a clause.
pub(crate) fn by_clause(sought: SoughtEquation, atoms: &[Atom]) -> Option<(Atom, Atom)>
    ensures { result ≡ first_sought sought (clause_equations atoms.now) }
{
    match atoms.len() {
        0 => sought.one(Atom::True, Atom::False),
        1 => sought.one(atoms[0], Atom::True),
        _ => None,
    }
}

/// The equations of a parity.
pub(crate) fn by_parity(sought: SoughtEquation, atoms: &[Atom], odd: bool) -> Option<(Atom, Atom)>
    ensures { result ≡ first_sought sought (parity_equations atoms.now odd) }
{
    match atoms.len() {
        0 => sought.when(odd, Atom::True, Atom::False),
        1 => sought.one(atoms[0], if odd { Atom::True } else { Atom::False }),
        2 => sought.one(atoms[0], if odd { atoms[1].not() } else { atoms[1] }),
        _ => None,
    }
}

/// The equation of a conjunction of no member or of one.
fn by_conjunction(sought: SoughtEquation, r: Atom, atoms: &[Atom]) -> Option<(Atom, Atom)>
    ensures { result ≡ first_sought sought (conjunction_equations r atoms.now) }
{
    match atoms.len() {
        0 => sought.one(r, Atom::True),
        1 => sought.one(r, atoms[0]),
        _ => None,
    }
}

/// The equations of a conjunction.
pub(crate) fn by_conj(sought: SoughtEquation, r: Atom, atoms: &[Atom]) -> Option<(Atom, Atom)>
    ensures { result ≡ first_sought sought (conj_equations r atoms.now) }
{
    let pair = by_conjunction(sought, r, atoms);
    if pair.is_none() && r.is_true() {
        return sought.each(atoms, Atom::True);
    }
    pair
}

/// The place of the first member that is True.
fn first_true(atoms: &[Atom]) -> Option<usize>
    ensures place { result ≡ place_of_true 0 atoms.now }
    ensures within { IfSome result (λ place. place < length atoms.now) }
{
    for (i, atom) in atoms.iter().enumerate() {
        if atom.is_true() {
            return Some(i);
        }
    }
    None
}

/// The equations of at-most-one: it looks for the first True member, and then goes over the others once.
pub(crate) fn by_amo(sought: SoughtEquation, atoms: &[Atom]) -> Option<(Atom, Atom)>
    ensures { result ≡ first_sought sought (amo_equations atoms.now) }
{
    let place = first_true(atoms)?;
    let (before, _) = atoms.split_at(place);
    let pair = sought.each(before, Atom::False);
    if pair.is_some() {
        return pair;
    }
    let (_, behind) = atoms.split_at(place + 1);
    sought.each(behind, Atom::False)
}
