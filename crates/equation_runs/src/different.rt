//! The equations that all-different tells at the values of its constants, and of members with the same two values.

ghost use Rattle.std.specs.Prelude.{◌≡◌, ◌<◌, ◌^◌, ◌++◌, ◌&&◌, ◌||◌, ℤ, length, map, unsigned_abs, IfOk, IfSome, OnOk};
ghost use Rattle.std.specs.BTreeSet.{contains};
ghost use Rattle.std.specs.Ordering.{int_cmp};
ghost use Rattle.core_forms.specs.Plain.{is_literal};
ghost use Rattle.core_forms.specs.WellFormed.{IsSound, AreSound};
ghost use Rattle.core_forms.specs.declared.equation.Rule.TheVariants.{Form};
ghost use Rattle.order_ints.specs.OrderRange.{low_of};
ghost use Rattle.order_ints.specs.OrderLevels.{values_of};
ghost use Rattle.rule_base.specs.Constant.{is_constant};
ghost use Rattle.rule_base.specs.Pairs.{only_if};
ghost use Rattle.equation_runs.specs.RunRows.{equation_of};
ghost use Rattle.equation_runs.specs.DifferentRuns.{constant_at, is_held, is_shared, is_spent, apart_pair};
ghost use Rattle.equation_runs.specs.DifferentRuns.{apart_pairs, condition_pair, excluded_pairs, member_pairs};
ghost use Rattle.equation_runs.specs.DifferentRuns.{members_pairs, different_pairs};

use crate::links::push_pair;
use crate::twins::shared_values;
use core_forms::{Equation, is_literal};
use order_ints::{Atom, OrdInt, Walk};
use rule_base::{is_constant, next};
use std::alloc::{AllocError, Global};
use std::collections::BTreeSet;

/// The value of the member at a place, if it is sure and has one alone.
fn constant_at(ints: &[OrdInt], conditions: &[Atom], place: usize) -> Option<i128>
    requires ints { place < length ints.now }
    requires conditions { place < length conditions.now }
    requires sound { AreSound ints.now }
    ensures value { result ≡ constant_at ints.now conditions.now place }
    ensures small { IfSome result (λ v. unsigned_abs v < 2 ^ 100) }
{
    let a = &ints[place];
    if conditions[place].is_true() && is_constant(a) {
        Some(a.low())
    } else {
        None
    }
}

/// The values of the sure constants.
fn held_values(
    alloc: Global,
    ints: &[OrdInt],
    conditions: &[Atom],
) -> Result<BTreeSet<i128>, AllocError>
    requires lengths { length ints.now ≡ length conditions.now }
    requires sound { AreSound ints.now }
    ensures { IfOk result (λ held. (v : ℤ) → contains int_cmp held v ≡ is_held ints.now conditions.now v) }
{
    let mut held = BTreeSet::new(alloc);
    for place in 0..ints.len() {
        if let Some(value) = constant_at(ints, conditions, place) {
            held.insert(value)?;
        }
    }
    Ok(held)
}

/// Adds that an integer isn't a value, unless its atoms there are one.
fn push_apart(run: &mut Vec<Equation>, walk: &mut Walk<'_>, value: i128) -> Result<(), AllocError>
    requires { unsigned_abs value < 2 ^ 100 }
    ensures same { walk.new.int.now ≡ walk.old.int.now }
    ensures run { OnOk result (run.new.items
        ≡ run.old.items ++ map (equation_of Form) (apart_pair walk.old.int.now value)) }
{
    let here = walk.at(value);
    let above = walk.at(next(value));
    if here != above {
        push_pair(run, here, above)?;
    }
    Ok(())
}

/// Adds the same where a value is taken.
fn push_where(
    run: &mut Vec<Equation>,
    walk: &mut Walk<'_>,
    taken: bool,
    value: i128,
) -> Result<(), AllocError>
    requires { unsigned_abs value < 2 ^ 100 }
    ensures same { walk.new.int.now ≡ walk.old.int.now }
    ensures run { OnOk result (run.new.items
        ≡ run.old.items ++ map (equation_of Form) (only_if taken (apart_pair walk.old.int.now value))) }
{
    if taken {
        push_apart(run, walk, value)?;
    }
    Ok(())
}

/// Whether three things are so.
fn all_three(first: bool, second: bool, third: bool) -> bool
    ensures { result ≡ (first && (second && third)) }
{
    first && second && third
}

/// The values that members take for themselves.
#[derive(Drop)]
struct Taken {
    /// Those of the sure constants.
    held: BTreeSet<i128>,
    /// Those of two members with the same two values, of which each has the one that the other has not.
    shared: BTreeSet<i128>,
}

impl Taken {
    /// Whether a value is one of them.
    fn has(&self, value: i128) -> bool
        ensures { result ≡ (contains int_cmp self.now.held value || contains int_cmp self.now.shared value) }
    {
        self.held.contains(&value) || self.shared.contains(&value)
    }

    /// Whether an integer has one value or two, which are taken.
    fn is_spent(&self, a: &OrdInt) -> bool
        requires { IsSound a.now }
        ensures { result ≡ is_spent
            (λ v. contains int_cmp self.now.held v || contains int_cmp self.now.shared v) a.now }
    {
        let low = self.has(a.low());
        let high = self.has(a.high());
        all_three(a.steps.len() <= 1, low, high)
    }
}

/// Adds that an integer is none of its values that are taken.
fn push_each_apart(run: &mut Vec<Equation>, taken: &Taken, a: &OrdInt) -> Result<(), AllocError>
    requires { IsSound a.now }
    ensures { OnOk result (run.new.items ≡ run.old.items
        ++ map (equation_of Form) (apart_pairs
        (λ v. contains int_cmp taken.now.held v || contains int_cmp taken.now.shared v)
        a.now (values_of a.now))) }
{
    let mut walk = Walk::along(a);
    for (value, _) in a.levels() {
        let there = taken.has(value);
        push_where(run, &mut walk, there, value)?;
    }
    Ok(())
}

/// Whether a value is held.
fn has(held: &BTreeSet<i128>, value: i128) -> bool
    ensures { result ≡ contains int_cmp held.now value }
{
    held.contains(&value)
}

/// Whether a condition is open, and its member a constant whose value is held.
fn is_refuted(held: &BTreeSet<i128>, condition: Atom, a: &OrdInt) -> bool
    requires { IsSound a.now }
    ensures { result ≡ (is_literal condition && (is_constant a.now && contains int_cmp held.now (low_of a.now))) }
{
    let open = is_literal(condition);
    let constant = is_constant(a);
    let there = has(held, a.low());
    all_three(open, constant, there)
}

/// Adds that the condition of a constant is false, where its value is held.
fn push_condition(
    run: &mut Vec<Equation>,
    held: &BTreeSet<i128>,
    condition: Atom,
    a: &OrdInt,
) -> Result<(), AllocError>
    requires { IsSound a.now }
    ensures { OnOk result (run.new.items
        ≡ run.old.items ++ map (equation_of Form) (condition_pair (contains int_cmp held.now) condition a.now)) }
{
    if is_refuted(held, condition, a) {
        push_pair(run, condition, Atom::False)?;
    }
    Ok(())
}

/// Adds that a sure member has no value that is taken.
fn push_excluded(
    run: &mut Vec<Equation>,
    taken: &Taken,
    condition: Atom,
    a: &OrdInt,
) -> Result<(), AllocError>
    requires { IsSound a.now }
    ensures { OnOk result (run.new.items ≡ run.old.items
        ++ map (equation_of Form) (excluded_pairs
        (λ v. contains int_cmp taken.now.held v || contains int_cmp taken.now.shared v)
        condition a.now)) }
{
    if condition.is_true() && !taken.is_spent(a) {
        push_each_apart(run, taken, a)?;
    }
    Ok(())
}

/// Adds the equations of one member.
fn push_member(
    run: &mut Vec<Equation>,
    taken: &Taken,
    condition: Atom,
    a: &OrdInt,
) -> Result<(), AllocError>
    requires { IsSound a.now }
    ensures { OnOk result (run.new.items ≡ run.old.items
        ++ map (equation_of Form) (member_pairs (contains int_cmp taken.now.held) (contains int_cmp taken.now.shared)
        condition a.now)) }
{
    push_condition(run, &taken.held, condition, a)?;
    push_excluded(run, taken, condition, a)?;
    Ok(())
}

/// Adds the equations of all members.
fn push_members(
    run: &mut Vec<Equation>,
    taken: &Taken,
    ints: &[OrdInt],
    conditions: &[Atom],
) -> Result<(), AllocError>
    requires lengths { length ints.now ≡ length conditions.now }
    requires sound { AreSound ints.now }
    ensures { OnOk result (run.new.items ≡ run.old.items
        ++ map (equation_of Form) (members_pairs (contains int_cmp taken.now.held) (contains int_cmp taken.now.shared)
        ints.now conditions.now (length ints.now))) }
{
    for place in 0..ints.len() {
        push_member(run, taken, conditions[place], &ints[place])?;
    }
    Ok(())
}

/// The values that members take for themselves.
fn taken_values(alloc: Global, ints: &[OrdInt], conditions: &[Atom]) -> Result<Taken, AllocError>
    requires lengths { length ints.now ≡ length conditions.now }
    requires sound { AreSound ints.now }
    ensures held { IfOk result (λ taken. (v : ℤ) → contains int_cmp taken.held v ≡ is_held ints.now conditions.now v) }
    ensures shared { IfOk result
        (λ taken. (v : ℤ) → contains int_cmp taken.shared v ≡ is_shared ints.now conditions.now v) }
{
    Ok(Taken {
        held: held_values(alloc, ints, conditions)?,
        shared: shared_values(alloc, ints, conditions)?,
    })
}

/// Adds the equations of all-different at the values of its sure constants, and of members with the same two
/// values. Its time is near-linear in the values of all members, and its memory linear in the members.
pub(crate) fn push_different(
    alloc: Global,
    run: &mut Vec<Equation>,
    ints: &[OrdInt],
    conditions: &[Atom],
) -> Result<(), AllocError>
    requires lengths { length ints.now ≡ length conditions.now }
    requires sound { AreSound ints.now }
    ensures { OnOk result (run.new.items
        ≡ run.old.items ++ map (equation_of Form) (different_pairs ints.now conditions.now)) }
{
    let taken = taken_values(alloc, ints, conditions)?;
    push_members(run, &taken, ints, conditions)?;
    Ok(())
}
