//! The equations that follow along the steps of an integer from one constant step.

ghost use Rattle.std.specs.Prelude.{◌≡◌, ◌||◌, ◌++◌, [], ◌∷◌, map, reverse, IfOk, OnOk};
ghost use Rattle.order_ints.specs.declared.atom.Atom.TheVariants.{True, False};
ghost use Rattle.order_ints.specs.Same.{same_atom};
ghost use Rattle.core_forms.specs.declared.equation.Rule.TheVariants.{Order};
ghost use Rattle.rule_base.specs.Pairs.{only_if};
ghost use Rattle.equation_runs.specs.RunRows.{equation_of, behind, chain_pairs};

use core_forms::{Equation, Rule};
use order_ints::{Atom, OrdInt};
use std::alloc::AllocError;

/// Adds that an atom is a constant, where a step before it is. It tells whether it or a step before it is
/// the constant.
fn push_behind(
    run: &mut Vec<Equation>,
    constant: Atom,
    met: bool,
    atom: Atom,
) -> Result<bool, AllocError>
    ensures met { IfOk result (λ now. now ≡ (met || same_atom atom constant)) }
    ensures run { OnOk result (run.new.items
        ≡ run.old.items ++ map (equation_of Order) (only_if met ((atom, constant) ∷ []))) }
{
    if met {
        run.push(Equation {
            rule: Rule::Order,
            a: atom,
            b: constant,
        })?;
        return Ok(true);
    }
    Ok(atom == constant)
}

/// Adds the equations that follow upwards from the lowest False step.
fn push_false_above(run: &mut Vec<Equation>, a: &OrdInt) -> Result<(), AllocError>
    ensures { OnOk result (run.new.items ≡ run.old.items ++ map (equation_of Order) (behind False a.now.steps)) }
{
    let mut met = false;
    for step in a.steps.as_slice() {
        met = push_behind(run, Atom::False, met, step.0)?;
    }
    Ok(())
}

/// Adds the equations that follow downwards from the highest True step.
fn push_true_below(run: &mut Vec<Equation>, a: &OrdInt) -> Result<(), AllocError>
    ensures { OnOk result
        (run.new.items ≡ run.old.items ++ map (equation_of Order) (behind True (reverse a.now.steps))) }
{
    let steps = a.steps.as_slice();
    let mut met = false;
    for i in (0..steps.len()).rev() {
        met = push_behind(run, Atom::True, met, steps[i].0)?;
    }
    Ok(())
}

/// Adds the equations that follow along the steps of an integer.
pub(crate) fn push_chains(run: &mut Vec<Equation>, a: &OrdInt) -> Result<(), AllocError>
    ensures { OnOk result (run.new.items ≡ run.old.items ++ map (equation_of Order) (chain_pairs a.now)) }
{
    push_false_above(run, a)?;
    push_true_below(run, a)
}
