//! The sure members that have one value or two, in tables by these values.

ghost use Rattle.std.specs.Prelude.{◌≡◌, ◌<◌, ◌^◌, ◌↔◌, ◌||◌, ℕ, ℤ, List, length};
ghost use Rattle.std.specs.Prelude.{unsigned_abs, MatchOption, IfSome, IfOk, IsTrue, if◌then◌else◌};
ghost use Rattle.order_ints.specs.OrderRange.{low_of, high_of, IsBounded};
ghost use Rattle.std.specs.BTreeMap.{get};
ghost use Rattle.std.specs.Ordering.{int_cmp};
ghost use Rattle.order_ints.specs.declared.atom.Atom.{Atom};
ghost use Rattle.order_ints.specs.declared.order_int.OrdInt.{OrdInt};
ghost use Rattle.core_forms.specs.WellFormed.{AreSound};
ghost use Rattle.alldiff_rules.specs.Members.{int_at, IsSure, choice_of, IsConstantAt, IsChoiceAt, IsHolderAt};
ghost use Rattle.alldiff_rules.specs.Table.{pair_cmp, has_others, Shows};
ghost use Rattle.alldiff_rules.specs.Narrow.{IsNarrow, is_needed};

use crate::table::{Places, found, has_others, put, put_pair};
use order_ints::{Atom, OrdInt};
use std::alloc::{AllocError, Global};
use std::collections::BTreeMap;

/// The two values of a member, and the atom that tells them apart.
#[derive(Clone, Copy)]
pub(crate) struct Choice {
    /// The lower one.
    pub low: i128,
    /// By what the other one is greater.
    pub weight: u128,
    /// True where the member has the greater one.
    pub atom: Atom,
}

/// The value of the member at a place, if it is sure and has one alone.
pub(crate) fn constant_at(ints: &[OrdInt], conditions: &[Atom], place: usize) -> Option<i128>
    requires ints { place < length ints.now }
    requires conditions { place < length conditions.now }
    requires sound { AreSound ints.now }
    ensures value { MatchOption result
        ((v : ℤ) → IsConstantAt ints.now conditions.now v place → ⊥)
        (λ v. IsConstantAt ints.now conditions.now v place) }
    ensures small { IfSome result (λ v. unsigned_abs v < 2 ^ 100) }
{
    let a = &ints[place];
    if conditions[place].is_true() && a.steps.is_empty() {
        Some(a.low())
    } else {
        None
    }
}

/// The two values of the member at a place, if it is sure and has two.
pub(crate) fn choice_at(ints: &[OrdInt], conditions: &[Atom], place: usize) -> Option<Choice>
    requires ints { place < length ints.now }
    requires conditions { place < length conditions.now }
    requires sound { AreSound ints.now }
    ensures value { MatchOption result
        ((v : ℤ) (d : ℕ) → IsChoiceAt ints.now conditions.now v d place → ⊥)
        (λ c. IsSure conditions.now place
        × (int_at ints.now place ≡ choice_of c.low c.atom c.weight)) }
    ensures small { IfSome result (λ c. unsigned_abs c.low < 2 ^ 100) }
{
    let a = &ints[place];
    if !conditions[place].is_true() || a.steps.len() != 1 {
        return None;
    }
    let (atom, weight) = a.steps.as_slice()[0];
    Some(Choice {
        low: a.low(),
        weight,
        atom,
    })
}

/// The sure members that are constant, by their values.
pub(crate) fn constants(
    alloc: Global,
    ints: &[OrdInt],
    conditions: &[Atom],
) -> Result<BTreeMap<i128, Places>, AllocError>
    requires lengths { length ints.now ≡ length conditions.now }
    requires sound { AreSound ints.now }
    ensures { IfOk result (λ table. (v : ℤ)
        → Shows (λ i. (i < length ints.now) × IsConstantAt ints.now conditions.now v i)
        (get int_cmp table v)) }
{
    let mut table = BTreeMap::new(alloc);
    for place in 0..ints.len() {
        if let Some(value) = constant_at(ints, conditions, place) {
            put(&mut table, value, place)?;
        }
    }
    Ok(table)
}

/// The sure members that have two values, by the lower one and what the other is greater by.
pub(crate) fn choices(
    alloc: Global,
    ints: &[OrdInt],
    conditions: &[Atom],
) -> Result<BTreeMap<(i128, u128), Places>, AllocError>
    requires lengths { length ints.now ≡ length conditions.now }
    requires sound { AreSound ints.now }
    ensures { IfOk result (λ table. (key : ℤ × ℕ)
        → Shows (λ i. (i < length ints.now) × IsChoiceAt ints.now conditions.now key.0 key.1 i)
        (get pair_cmp table key)) }
{
    let mut table = BTreeMap::new(alloc);
    for place in 0..ints.len() {
        if let Some(choice) = choice_at(ints, conditions, place) {
            put_pair(&mut table, choice.low, choice.weight, place)?;
        }
    }
    Ok(table)
}

/// The first three members with the same two values.
pub(crate) fn found_choice(
    choices: &BTreeMap<(i128, u128), Places>,
    choice: Choice,
) -> Option<Places>
    requires { unsigned_abs choice.low < 2 ^ 100 }
    ensures { result ≡ get pair_cmp choices.now (choice.low, choice.weight) }
{
    choices.get(&(choice.low, choice.weight)).copied()
}

/// Whether the table has two values at another place than that of a member.
pub(crate) fn is_shared(
    choices: &BTreeMap<(i128, u128), Places>,
    choice: Choice,
    place: usize,
) -> bool
    requires { unsigned_abs choice.low < 2 ^ 100 }
    ensures { result ≡ has_others 1 place (get pair_cmp choices.now (choice.low, choice.weight)) }
{
    has_others(1, place, found_choice(choices, choice))
}

/// The least value of an integer, or the greatest.
fn end_value(a: &OrdInt, upper: bool) -> i128
    requires { IsBounded a.now }
    ensures value { result ≡ (if upper then high_of a.now else low_of a.now) }
    ensures small { unsigned_abs result < 2 ^ 100 }
{
    if upper { a.high() } else { a.low() }
}

/// The lower or the greater one of the two values of the member at a place, if it is sure, has two, and
/// another sure member has the same.
fn held_value(
    choices: &BTreeMap<(i128, u128), Places>,
    ints: &[OrdInt],
    conditions: &[Atom],
    place: usize,
    upper: bool,
) -> Option<i128>
    requires ints { place < length ints.now }
    requires conditions { place < length conditions.now }
    requires sound { AreSound ints.now }
    requires choices { (key : ℤ × ℕ)
        → Shows (λ i. (i < length ints.now) × IsChoiceAt ints.now conditions.now key.0 key.1 i)
        (get pair_cmp choices.now key) }
    ensures value { MatchOption result
        ((v : ℤ) → IsHolderAt ints.now conditions.now upper v place → ⊥)
        (λ v. IsHolderAt ints.now conditions.now upper v place) }
    ensures small { IfSome result (λ v. unsigned_abs v < 2 ^ 100) }
{
    match choice_at(ints, conditions, place) {
        Some(choice) => {
            if is_shared(choices, choice, place) {
                Some(end_value(&ints[place], upper))
            } else {
                None
            }
        }
        None => None,
    }
}

/// The sure members that share their two values with others, by the lower or the greater one.
fn holders(
    alloc: Global,
    choices: &BTreeMap<(i128, u128), Places>,
    ints: &[OrdInt],
    conditions: &[Atom],
    upper: bool,
) -> Result<BTreeMap<i128, Places>, AllocError>
    requires lengths { length ints.now ≡ length conditions.now }
    requires sound { AreSound ints.now }
    requires choices { (key : ℤ × ℕ)
        → Shows (λ i. (i < length ints.now) × IsChoiceAt ints.now conditions.now key.0 key.1 i)
        (get pair_cmp choices.now key) }
    ensures { IfOk result (λ table. (v : ℤ)
        → Shows (λ i. (i < length ints.now) × IsHolderAt ints.now conditions.now upper v i)
        (get int_cmp table v)) }
{
    let mut table = BTreeMap::new(alloc);
    for place in 0..ints.len() {
        if let Some(value) = held_value(choices, ints, conditions, place, upper) {
            put(&mut table, value, place)?;
        }
    }
    Ok(table)
}

/// Tables of the sure members that have one value or two.
#[derive(Drop)]
pub(crate) struct Narrow {
    /// Those with one value, by it.
    constants: BTreeMap<i128, Places>,
    /// Those that share their two values with others, by the lower one.
    lows: BTreeMap<i128, Places>,
    /// The same by the greater one.
    highs: BTreeMap<i128, Places>,
}

/// Whether one of two things is so.
fn either(first: bool, second: bool) -> bool
    ensures { result ≡ (first || second) }
{
    first || second
}

impl Narrow {
    /// The tables of members, by the one of those with two values. It takes time near-linear in the members.
    pub fn of(
        alloc: Global,
        choices: &BTreeMap<(i128, u128), Places>,
        ints: &[OrdInt],
        conditions: &[Atom],
    ) -> Result<Narrow, AllocError>
        requires lengths { length ints.now ≡ length conditions.now }
        requires sound { AreSound ints.now }
        requires choices { (key : ℤ × ℕ)
            → Shows (λ i. (i < length ints.now) × IsChoiceAt ints.now conditions.now key.0 key.1 i)
            (get pair_cmp choices.now key) }
        ensures { IfOk result (IsNarrow ints.now conditions.now) }
    {
        let constants = constants(alloc, ints, conditions)?;
        let lows = holders(alloc, choices, ints, conditions, false)?;
        let highs = holders(alloc, choices, ints, conditions, true)?;
        Ok(Narrow {
            constants,
            lows,
            highs,
        })
    }

    /// Whether a member at another place than `place` is the constant of a value. It takes one look into a
    /// table.
    pub fn is_constant(&self, value: i128, place: usize) -> bool
        ensures { result ≡ has_others 1 place (get int_cmp self.now.constants value) }
    {
        has_others(1, place, found(&self.constants, value))
    }

    /// Whether members at two other places than `place` share their two values with others, and the lower one
    /// of them is a value, or the greater one is.
    fn is_held(&self, value: i128, place: usize) -> bool
        ensures { result ≡ (has_others 2 place (get int_cmp self.now.lows value)
            || has_others 2 place (get int_cmp self.now.highs value)) }
    {
        let low = has_others(2, place, found(&self.lows, value));
        let high = has_others(2, place, found(&self.highs, value));
        either(low, high)
    }

    /// Whether members at other places than `place` need a value. It takes three looks into tables.
    pub fn is_needed(&self, value: i128, place: usize) -> bool
        ensures { result ≡ is_needed self.now place value }
    {
        let constant = self.is_constant(value, place);
        let held = self.is_held(value, place);
        either(constant, held)
    }
}
