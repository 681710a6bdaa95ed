//! The equations of members with the same two values.

ghost use Rattle.std.specs.Prelude.{◌≡◌, ◌<◌, ◌^◌, ◌↔◌, ℤ, ℕ, true, length, unsigned_abs};
ghost use Rattle.std.specs.Prelude.{MatchOption, IfSome, IfOk, IsTrue};
ghost use Rattle.std.specs.BTreeMap.{get};
ghost use Rattle.core_forms.specs.WellFormed.{AreSound};
ghost use Rattle.rule_base.specs.declared.sought.SoughtEquation.TheVariants.{Apart, Pair};
ghost use Rattle.rule_base.specs.Pairs.{first_sought};
ghost use Rattle.alldiff_rules.specs.Members.{int_at, IsChoiceAt};
ghost use Rattle.alldiff_rules.specs.Table.{pair_cmp, has_others, Shows};
ghost use Rattle.alldiff_rules.specs.Finds.{Finds};
ghost use Rattle.alldiff_rules.specs.Twins.{IsSplitAt, HasTwins, IsTwinRow, first_atom, twin_equations};
ghost use Rattle.alldiff_rules.specs.Twins.{shown_equations, IsShownTwin};

use crate::narrow::{Choice, choice_at, found_choice, is_shared};
use crate::table::{Places, put_pair};
use order_ints::{Atom, OrdInt};
use rule_base::SoughtEquation;
use std::alloc::{AllocError, Global};
use std::collections::BTreeMap;

/// The two values of the member at a place, if it is sure, has two, and an atom tells them apart.
fn split_at(ints: &[OrdInt], conditions: &[Atom], atom: Atom, place: usize) -> Option<Choice>
    requires ints { place < length ints.now }
    requires conditions { place < length conditions.now }
    requires sound { AreSound ints.now }
    ensures value { MatchOption result
        ((v : ℤ) (d : ℕ) → IsSplitAt ints.now conditions.now atom v d place → ⊥)
        (λ c. IsSplitAt ints.now conditions.now atom c.low c.weight place) }
    ensures small { IfSome result (λ c. unsigned_abs c.low < 2 ^ 100) }
{
    match choice_at(ints, conditions, place) {
        Some(choice) => {
            if choice.atom == atom {
                Some(choice)
            } else {
                None
            }
        }
        None => None,
    }
}

/// The sure members whose two values an atom tells apart, by the lower one and what the other is greater by.
fn split_by(
    alloc: Global,
    ints: &[OrdInt],
    conditions: &[Atom],
    atom: Atom,
) -> Result<BTreeMap<(i128, u128), Places>, AllocError>
    requires lengths { length ints.now ≡ length conditions.now }
    requires sound { AreSound ints.now }
    ensures { IfOk result (λ table. (key : ℤ × ℕ)
        → Shows (λ i. (i < length ints.now) × IsSplitAt ints.now conditions.now atom key.0 key.1 i)
        (get pair_cmp table key)) }
{
    let mut table = BTreeMap::new(alloc);
    for place in 0..ints.len() {
        if let Some(choice) = split_at(ints, conditions, atom, place) {
            put_pair(&mut table, choice.low, choice.weight, place)?;
        }
    }
    Ok(table)
}

/// Whether an atom tells apart two values of the member at a place that the table has at another one.
fn is_twin(
    table: &BTreeMap<(i128, u128), Places>,
    ints: &[OrdInt],
    conditions: &[Atom],
    atom: Atom,
    place: usize,
) -> bool
    requires ints { place < length ints.now }
    requires conditions { place < length conditions.now }
    requires sound { AreSound ints.now }
    ensures { IsTrue result ↔ ((v : ℤ) × (d : ℕ) × IsSplitAt ints.now conditions.now atom v d place
        × (has_others 1 place (get pair_cmp table.now (v, d)) ≡ true)) }
{
    match split_at(ints, conditions, atom, place) {
        Some(choice) => is_shared(table, choice, place),
        None => false,
    }
}

/// Whether two members have the same two values, of which these atoms tell the greater one. It takes time
/// near-linear in the members.
fn has_twins(
    alloc: Global,
    ints: &[OrdInt],
    conditions: &[Atom],
    p: Atom,
    q: Atom,
) -> Result<bool, AllocError>
    requires lengths { length ints.now ≡ length conditions.now }
    requires sound { AreSound ints.now }
    ensures { IfOk result (λ told. IsTrue told ↔ HasTwins ints.now conditions.now p q) }
{
    let table = split_by(alloc, ints, conditions, q)?;
    for place in 0..ints.len() {
        if is_twin(&table, ints, conditions, p, place) {
            return Ok(true);
        }
    }
    Ok(false)
}

/// The equation of two given atoms, in the order in which members with the same two values state it.
fn given_twins(
    alloc: Global,
    ints: &[OrdInt],
    conditions: &[Atom],
    a: Atom,
    b: Atom,
) -> Result<Option<(Atom, Atom)>, AllocError>
    requires lengths { length ints.now ≡ length conditions.now }
    requires sound { AreSound ints.now }
    ensures { IfOk result (Finds (Pair a b) (IsTwinRow ints.now conditions.now)) }
{
    if has_twins(alloc, ints, conditions, a, b.not())? {
        return Ok(Some((a, b)));
    }
    if has_twins(alloc, ints, conditions, b, a.not())? {
        return Ok(Some((b, a)));
    }
    Ok(None)
}

/// The atom of the first step of the member at a place, and True where there is none.
pub fn atom_at(ints: &[OrdInt], place: usize) -> Atom
    ensures { result ≡ first_atom (int_at ints.now place).steps }
{
    let Some(a) = ints.get(place) else {
        return Atom::True;
    };
    match a.steps.as_slice().first() {
        Some(step) => step.0,
        None => Atom::True,
    }
}

/// Of two members with the same two values each takes what the other doesn't: a member's atom is the negation of the
/// atom of the member at another place, where there is one.
fn apart_from(
    ints: &[OrdInt],
    atom: Atom,
    place: usize,
    other: Option<usize>,
) -> Option<(Atom, Atom)>
    ensures { result ≡ first_sought Apart (twin_equations ints.now atom place other) }
{
    match other {
        Some(other) => SoughtEquation::Apart.when(other != place, atom, atom_at(ints, other).not()),
        None => None,
    }
}

/// The equations of a member's atom with those of three members at other places.
fn apart_from_each(
    ints: &[OrdInt],
    atom: Atom,
    place: usize,
    shown: Option<Places>,
) -> Option<(Atom, Atom)>
    ensures { result ≡ first_sought Apart (shown_equations ints.now atom place shown) }
{
    let Some(places) = shown else {
        return None;
    };
    let with_first = apart_from(ints, atom, place, Some(places.first));
    let with_second = apart_from(ints, atom, place, places.second);
    let with_third = apart_from(ints, atom, place, places.third);
    with_first.or(with_second).or(with_third)
}

/// The equations of the member at a place with the first three that have the same two values.
fn apart_at(
    choices: &BTreeMap<(i128, u128), Places>,
    ints: &[OrdInt],
    conditions: &[Atom],
    place: usize,
) -> Option<(Atom, Atom)>
    requires ints { place < length ints.now }
    requires conditions { place < length conditions.now }
    requires sound { AreSound ints.now }
    requires choices { (key : ℤ × ℕ)
        → Shows (λ i. (i < length ints.now) × IsChoiceAt ints.now conditions.now key.0 key.1 i)
        (get pair_cmp choices.now key) }
    ensures { Finds Apart (IsShownTwin ints.now conditions.now choices.now place) result }
{
    match choice_at(ints, conditions, place) {
        Some(choice) => {
            let shown = found_choice(choices, choice);
            apart_from_each(ints, choice.atom, place, shown)
        }
        None => None,
    }
}

/// An equation of two different atoms that members with the same two values state. Of three such members
/// some two state one, so no more of them are looked at.
fn apart_twins(
    choices: &BTreeMap<(i128, u128), Places>,
    ints: &[OrdInt],
    conditions: &[Atom],
) -> Option<(Atom, Atom)>
    requires lengths { length ints.now ≡ length conditions.now }
    requires sound { AreSound ints.now }
    requires choices { (key : ℤ × ℕ)
        → Shows (λ i. (i < length ints.now) × IsChoiceAt ints.now conditions.now key.0 key.1 i)
        (get pair_cmp choices.now key) }
    ensures { Finds Apart (IsTwinRow ints.now conditions.now) result }
{
    for place in 0..ints.len() {
        let pair = apart_at(choices, ints, conditions, place);
        if pair.is_some() {
            return pair;
        }
    }
    None
}

/// The equations of members with the same two values.
pub(crate) fn by_twins(
    alloc: Global,
    sought: SoughtEquation,
    choices: &BTreeMap<(i128, u128), Places>,
    ints: &[OrdInt],
    conditions: &[Atom],
) -> Result<Option<(Atom, Atom)>, AllocError>
    requires lengths { length ints.now ≡ length conditions.now }
    requires sound { AreSound ints.now }
    requires choices { (key : ℤ × ℕ)
        → Shows (λ i. (i < length ints.now) × IsChoiceAt ints.now conditions.now key.0 key.1 i)
        (get pair_cmp choices.now key) }
    ensures { IfOk result (Finds sought (IsTwinRow ints.now conditions.now)) }
{
    match sought {
        SoughtEquation::Apart => Ok(apart_twins(choices, ints, conditions)),
        SoughtEquation::Pair(a, b) => given_twins(alloc, ints, conditions, a, b),
    }
}
