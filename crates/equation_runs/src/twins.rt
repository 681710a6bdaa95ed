//! Which values members with the same two values take.

ghost use Rattle.std.specs.Prelude.{◌≡◌, ◌<◌, ◌+◌, ◌^◌, ◌||◌, ℤ, ℕ, Some, length, unsigned_abs, IfOk, IfSome};
ghost use Rattle.std.specs.Prelude.{MatchOption, OnOk};
ghost use Rattle.std.specs.BTreeMap.{get, Updates};
ghost use Rattle.std.specs.BTreeSet.{contains};
ghost use Rattle.std.specs.Ordering.{int_cmp, int_eq};
ghost use Rattle.order_ints.specs.OrderRange.{low_of, high_of, IsBounded};
ghost use Rattle.core_forms.specs.WellFormed.{AreSound};
ghost use Rattle.alldiff_rules.specs.Table.{pair_cmp};
ghost use Rattle.equation_runs.specs.TwinRuns.{choice_at, first_with, twin_at, is_of_twin, is_shared_before};

use alldiff_rules::atom_at;
use order_ints::{Atom, OrdInt};
use std::alloc::{AllocError, Global};
use std::collections::{BTreeMap, BTreeSet};

/// The lower one of the two values of the member at a place, and by what the other one is greater, if it is sure
/// and has two.
fn choice_at(ints: &[OrdInt], conditions: &[Atom], place: usize) -> Option<(i128, u128)>
    requires ints { place < length ints.now }
    requires conditions { place < length conditions.now }
    requires sound { AreSound ints.now }
    ensures value { result ≡ choice_at ints.now conditions.now place }
    ensures small { IfSome result (λ key. unsigned_abs key.0 < 2 ^ 100) }
{
    let a = &ints[place];
    if !conditions[place].is_true() || a.steps.len() != 1 {
        return None;
    }
    Some((a.low(), a.steps.as_slice()[0].1))
}

/// The place that stands with two values; where none does, the given one does from now on.
fn first_or_put(
    firsts: &mut BTreeMap<(i128, u128), usize>,
    key: (i128, u128),
    place: usize,
) -> Result<Option<usize>, AllocError>
    ensures first { IfOk result (λ first. first ≡ get pair_cmp firsts.old key) }
    ensures firsts { OnOk result (MatchOption (get pair_cmp firsts.old key)
        (Updates pair_cmp firsts.old firsts.new key (Some place)) (λ first. firsts.new ≡ firsts.old)) }
{
    match firsts.get(&key).copied() {
        Some(first) => Ok(Some(first)),
        None => {
            firsts.insert(key, place)?;
            Ok(None)
        }
    }
}

/// The first place at which a member has the two values of the one at a place, if that is an earlier one.
pub(crate) fn earlier_twin(
    firsts: &mut BTreeMap<(i128, u128), usize>,
    ints: &[OrdInt],
    conditions: &[Atom],
    place: usize,
) -> Result<Option<usize>, AllocError>
    requires ints { place < length ints.now }
    requires conditions { place < length conditions.now }
    requires sound { AreSound ints.now }
    requires firsts { (key : ℤ × ℕ) → get pair_cmp firsts.old key ≡ first_with ints.now conditions.now place key }
    ensures twin { IfOk result (λ twin. twin ≡ twin_at ints.now conditions.now place) }
    ensures firsts { OnOk result ((key : ℤ × ℕ)
        → get pair_cmp firsts.new key ≡ first_with ints.now conditions.now (place + 1) key) }
{
    match choice_at(ints, conditions, place) {
        Some(key) => first_or_put(firsts, key, place),
        None => Ok(None),
    }
}

/// Puts both values of an integer into a set.
fn put_ends(shared: &mut BTreeSet<i128>, a: &OrdInt) -> Result<(), AllocError>
    requires { IsBounded a.now }
    ensures { OnOk result ((v : ℤ) → contains int_cmp shared.new v
        ≡ (contains int_cmp shared.old v || (int_eq (low_of a.now) v || int_eq (high_of a.now) v))) }
{
    shared.insert(a.low())?;
    shared.insert(a.high())?;
    Ok(())
}

/// Puts the two values of the member at a place into a set, if it has what its earlier twin has not.
fn share(
    shared: &mut BTreeSet<i128>,
    ints: &[OrdInt],
    place: usize,
    twin: Option<usize>,
) -> Result<(), AllocError>
    requires place { place < length ints.now }
    requires sound { AreSound ints.now }
    ensures { OnOk result ((v : ℤ) → contains int_cmp shared.new v
        ≡ (contains int_cmp shared.old v || is_of_twin ints.now place v twin)) }
{
    match twin {
        Some(first) if atom_at(ints, first) == atom_at(ints, place).not() => {
            put_ends(shared, &ints[place])
        }
        _ => Ok(()),
    }
}

/// The values that members with the same two values take, each of which has the one that the other has not.
/// It takes time near-linear in the members.
pub(crate) fn shared_values(
    alloc: Global,
    ints: &[OrdInt],
    conditions: &[Atom],
) -> Result<BTreeSet<i128>, AllocError>
    requires lengths { length ints.now ≡ length conditions.now }
    requires sound { AreSound ints.now }
    ensures { IfOk result (λ shared. (v : ℤ)
        → contains int_cmp shared v ≡ is_shared_before ints.now conditions.now (length ints.now) v) }
{
    let mut firsts = BTreeMap::new(alloc);
    let mut shared = BTreeSet::new(alloc);
    for place in 0..ints.len() {
        let twin = earlier_twin(&mut firsts, ints, conditions, place)?;
        share(&mut shared, ints, place, twin)?;
    }
    Ok(shared)
}
