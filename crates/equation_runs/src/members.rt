//! The equations that a True member tells of those beside it.

ghost use Rattle.std.specs.Prelude.{◌≡◌, ◌||◌, ◌++◌, [], ◌∷◌, not, true, map, IfOk, OnOk};
ghost use Rattle.order_ints.specs.declared.atom.Atom.TheVariants.{False};
ghost use Rattle.order_ints.specs.Same.{is_true};
ghost use Rattle.core_forms.specs.declared.equation.Rule.TheVariants.{Form};
ghost use Rattle.core_forms.specs.Trimmed.{has_true};
ghost use Rattle.rule_base.specs.Pairs.{only_if};
ghost use Rattle.equi_rules.specs.AtomRows.{amo_equations};
ghost use Rattle.equation_runs.specs.RunRows.{equation_of};

use crate::links::push_pair;
use core_forms::Equation;
use order_ints::Atom;
use std::alloc::AllocError;

/// Whether some member is True.
fn has_true(atoms: &[Atom]) -> bool
    ensures { result ≡ has_true atoms.now }
{
    for atom in atoms {
        if atom.is_true() {
            return true;
        }
    }
    false
}

/// Adds that a member is false, unless it is the first True one. It tells whether this or one before was that.
fn push_beside(run: &mut Vec<Equation>, met: bool, atom: Atom) -> Result<bool, AllocError>
    ensures met { IfOk result (λ now. now ≡ (met || is_true atom)) }
    ensures run { OnOk result (run.new.items
        ≡ run.old.items ++ map (equation_of Form) (only_if (met || not (is_true atom)) ((atom, False) ∷ []))) }
{
    if !met && atom.is_true() {
        return Ok(true);
    }
    push_pair(run, atom, Atom::False)?;
    Ok(met)
}

/// Adds that each member is false but the first True one.
fn push_others(run: &mut Vec<Equation>, atoms: &[Atom]) -> Result<(), AllocError>
    requires { has_true atoms.now ≡ true }
    ensures { OnOk result (run.new.items ≡ run.old.items ++ map (equation_of Form) (amo_equations atoms.now)) }
{
    let mut met = false;
    for atom in atoms {
        met = push_beside(run, met, *atom)?;
    }
    Ok(())
}

/// Adds, where a member of at-most-one is True, that each other one is false.
pub(crate) fn push_amo(run: &mut Vec<Equation>, atoms: &[Atom]) -> Result<(), AllocError>
    ensures { OnOk result (run.new.items ≡ run.old.items ++ map (equation_of Form) (amo_equations atoms.now)) }
{
    if has_true(atoms) {
        push_others(run, atoms)?;
    }
    Ok(())
}
