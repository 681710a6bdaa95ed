//! The run of a core.

ghost use Rattle.std.specs.Prelude.{◌≡◌, ℕ, true, ◌+◌, ◌++◌, ◌∷◌, [], map, IfOk, IfSome, OnOk};
ghost use Rattle.core_forms.specs.Contents.{ints_of};
ghost use Rattle.core_forms.specs.Totals.{before_last};
ghost use Rattle.core_forms.specs.WellFormed.{IsWellFormed, IsSound};
ghost use Rattle.core_forms.specs.declared.equation.Rule.TheVariants.{Order, Form};
ghost use Rattle.order_ints.specs.OrderRange.{low_of};
ghost use Rattle.rule_base.specs.Pairs.{only_if};
ghost use Rattle.rule_base.specs.Constant.{is_constant};
ghost use Rattle.arith_rules.specs.SumRows.{raised_equations, mirrored_equations, sum3_constants};
ghost use Rattle.core_forms.specs.Place.{CoreBelow};
ghost use Rattle.equation_runs.specs.Turns.{AreToldInTurn, is_stated, EquationsBelow};
ghost use Rattle.equation_runs.specs.BoundRows.{bound_pairs};
ghost use Rattle.equation_runs.specs.RunRows.{equation_of, chain_pairs, chains_of, link_pairs, run_of};

use crate::bounds::push_bounds;
use crate::chains::push_chains;
use crate::different::push_different;
use crate::links::{push_mirrored, push_raised};
use crate::maxima::push_leaders;
use crate::members::push_amo;
use crate::products::push_product;
use arith_rules::{binds_last_alone, totals_of};
use core_forms::{Core, Equation};
use order_ints::OrdInt;
use rule_base::{Steps, is_constant};
use std::alloc::{AllocError, Global};
use std::sync::ledger::Ledger;

/// Adds the equations of `b` being `a` and a constant, added up, where `by` is one.
fn push_raised_by(
    run: &mut Vec<Equation>,
    by: &OrdInt,
    a: &OrdInt,
    b: &OrdInt,
) -> Result<(), AllocError>
    requires by { IsSound by.now }
    requires a { IsSound a.now }
    requires b { IsSound b.now }
    ensures { OnOk result (run.new.items
        ≡ run.old.items
        ++ map (equation_of Form) (only_if (is_constant by.now) (raised_equations (low_of by.now) a.now b.now))) }
{
    if is_constant(by) {
        let k = by.low();
        push_raised(run, k, a, b)?;
    }
    Ok(())
}

/// Adds the equations of `a` and `b` being a constant, added up, where `by` is one.
fn push_mirrored_by(
    run: &mut Vec<Equation>,
    by: &OrdInt,
    a: &OrdInt,
    b: &OrdInt,
) -> Result<(), AllocError>
    requires by { IsSound by.now }
    requires a { IsSound a.now }
    requires b { IsSound b.now }
    ensures { OnOk result (run.new.items
        ≡ run.old.items
        ++ map (equation_of Form) (only_if (is_constant by.now) (mirrored_equations (low_of by.now) a.now b.now))) }
{
    if is_constant(by) {
        let k = by.low();
        push_mirrored(run, k, a, b)?;
    }
    Ok(())
}

/// Adds the equations of a sum of two integers, where one of the three is constant.
fn push_sum3(run: &mut Vec<Equation>, a: &OrdInt, b: &OrdInt, c: &OrdInt) -> Result<(), AllocError>
    requires a { IsSound a.now }
    requires b { IsSound b.now }
    requires c { IsSound c.now }
    ensures { OnOk result (run.new.items
        ≡ run.old.items ++ map (equation_of Form) (sum3_constants a.now b.now c.now)) }
{
    push_raised_by(run, a, b, c)?;
    push_raised_by(run, b, a, c)?;
    push_mirrored_by(run, c, a, b)?;
    Ok(())
}

/// Adds the equations that link two of a core's integers value by value, and those that constants tell of
/// members that differ.
fn push_links(alloc: Global, run: &mut Vec<Equation>, core: &Core) -> Result<(), AllocError>
    requires { IsWellFormed core.now }
    ensures { OnOk result (run.new.items ≡ run.old.items ++ map (equation_of Form) (link_pairs core.now)) }
{
    match core {
        Core::EqR(r, a, b) => {
            if r.is_true() {
                push_raised(run, 0, a.get(), b.get())?;
            }
            Ok(())
        }
        Core::Sum3(a, b, c) => push_sum3(run, a.get(), b.get(), c.get()),
        Core::Max(ints, c) => push_leaders(run, ints.as_slice(), c.get()),
        Core::AllDiff(ints, conditions) => {
            push_different(alloc, run, ints.as_slice(), conditions.get().as_slice())
        }
        Core::Amo(ls) => push_amo(run, ls.as_slice()),
        Core::Prod(a, b, c) => push_product(run, a.get(), b.get(), c.get()),
        _ => Ok(()),
    }
}

/// The equations that are told once those before them are made, those along the integers of a core, and those that
/// link two of them.
fn equations_in_turn(alloc: Global, core: &Core) -> Result<Vec<Equation>, AllocError>
    requires { IsWellFormed core.now }
    ensures { IfOk result (λ run. run.items ≡ run_of core.now) }
{
    let mut run = Vec::new(alloc);
    push_bounds(alloc, &mut run, core)?;
    for a in core.ints() {
        push_chains(&mut run, a)?;
    }
    push_links(alloc, &mut run, core)?;
    Ok(run)
}

/// Equations that a core tells one after another. First what is told once those before it are made: that the members of
/// a true conjunction, or of a count at an end, are all constants, what the others leave each member of a sum or a
/// maximum, and that two members that differ, with the same two values, have not one of them. Then what is told
/// whatever the store makes of the core: upwards along the steps of each integer from a False one, and downwards from a
/// True one; between two of its integers, where these are equal, where one is the other with a constant added or
/// multiplied, or where they make up a constant; between a maximum and the member that alone leads; beside a True
/// member of at-most-one; and of members that differ, that none has the value of another one that is constant, or one
/// of the two that two others have for themselves. So one look at a core is enough for all of them, where each would
/// else cost one of its own. Its time is that of one sort of the core's variables, and near-linear in the core besides.
/// It counts one step.
pub fn run_of<L: Ledger>(
    alloc: Global,
    core: &Core,
    steps: &mut Steps<L>,
) -> Result<Vec<Equation>, AllocError>
    requires { IsWellFormed core.now }
    ensures shape { IfOk result (λ run. run.items ≡ run_of core.now) }

    // Each of them is made, or stated of the core as the store has it, once those before it are made.
    ensures told { IfOk result (λ run. AreToldInTurn (λ c e. is_stated c e ≡ true) core.now run.items) }
    ensures below { (n : ℕ) → CoreBelow n core.now → IfOk result (λ run. EquationsBelow n run.items) }
    ensures steps { steps.new ≡ steps.old + 1 }
{
    steps.tick();
    equations_in_turn(alloc, core)
}

/// The equations of a run but for those along the integers of the core.
fn equations_of_form(alloc: Global, core: &Core) -> Result<Vec<Equation>, AllocError>
    requires { IsWellFormed core.now }
    ensures { IfOk result (λ run. run.items
        ≡ map (equation_of Form) (bound_pairs core.now) ++ map (equation_of Form) (link_pairs core.now)) }
{
    let mut run = Vec::new(alloc);
    push_bounds(alloc, &mut run, core)?;
    push_links(alloc, &mut run, core)?;
    Ok(run)
}

/// `run_of` without the equations along the integers of the core. Where the rule Order states nothing of the core these
/// are all made: no constant step has one before it or behind it that isn't the same constant. It counts one step.
pub fn run_of_form<L: Ledger>(
    alloc: Global,
    core: &Core,
    steps: &mut Steps<L>,
) -> Result<Vec<Equation>, AllocError>
    requires { IsWellFormed core.now }

    // Each of them is made, or stated of the core as the store has it, once those before it are made.
    ensures told { IfOk result (λ run. AreToldInTurn (λ c e. is_stated c e ≡ true) core.now run.items) }
    ensures below { (n : ℕ) → CoreBelow n core.now → IfOk result (λ run. EquationsBelow n run.items) }
    ensures steps { steps.new ≡ steps.old + 1 }
{
    steps.tick();
    equations_of_form(alloc, core)
}

/// The last of some integers, if there is one.
fn last_of(ints: &[OrdInt]) -> Option<&OrdInt>
    ensures { IfSome result (λ last. ints.now ≡ before_last ints.now ++ last.now ∷ []) }
{
    match ints.split_last() {
        Some((last, _)) => Some(last),
        None => None,
    }
}

/// The last member of a sum, where it is known that the others leave each member but this one all its values.
fn last_alone(core: &Core) -> Option<&OrdInt>
    requires { IsWellFormed core.now }
    ensures { IfSome result (λ last. ints_of core.now ≡ before_last (ints_of core.now) ++ last.now ∷ []) }
{
    match core {
        Core::Sum(ints, k) => {
            let all = totals_of(ints);
            if binds_last_alone(ints, &all, k.get()) {
                return last_of(ints.as_slice());
            }
            None
        }
        _ => None,
    }
}

/// The equations that follow along the steps of one integer.
fn chains_alone(alloc: Global, a: &OrdInt) -> Result<Vec<Equation>, AllocError>
    ensures { IfOk result (λ run. run.items ≡ map (equation_of Order) (chain_pairs a.now)) }
{
    let mut run = Vec::new(alloc);
    push_chains(&mut run, a)?;
    Ok(run)
}

/// A run of a core whose members are plain, but perhaps for the last one of a sum. Where the others leave each member
/// but that one all its values, it is what follows along the steps of that one, in the time of it alone: a plain member
/// has no constant to go on from. Else it is `run_of`. It counts one step.
pub fn run_at_edge<L: Ledger>(
    alloc: Global,
    core: &Core,
    steps: &mut Steps<L>,
) -> Result<Vec<Equation>, AllocError>
    requires { IsWellFormed core.now }

    // Each of them is made, or stated of the core as the store has it, once those before it are made.
    ensures told { IfOk result (λ run. AreToldInTurn (λ c e. is_stated c e ≡ true) core.now run.items) }
    ensures below { (n : ℕ) → CoreBelow n core.now → IfOk result (λ run. EquationsBelow n run.items) }
    ensures steps { steps.new ≡ steps.old + 1 }
{
    match last_alone(core) {
        Some(last) => {
            steps.tick();
            chains_alone(alloc, last)
        }
        None => run_of(alloc, core, steps),
    }
}
