//! Whether atoms are literals of different variables.

ghost use Rattle.std.specs.Prelude.{◌≡◌, ◌++◌, ◌∷◌, [], IfOk, OnOk};
ghost use Rattle.core_forms.specs.Sums.{ascending};
ghost use Rattle.equation_runs.specs.FreeAtoms.{vars_of, are_different, are_free, step_atoms, int_atoms};

use order_ints::{Atom, OrdInt};
use std::alloc::{AllocError, Global};

/// Adds the variable of a literal; a constant stands for two that are one.
fn push_var(vars: &mut Vec<i64>, atom: Atom) -> Result<(), AllocError>
    ensures { OnOk result (vars.new.items ≡ vars.old.items ++ vars_of (atom ∷ [])) }
{
    match atom {
        Atom::Of(l) => vars.push(i64::from(l.var))?,
        Atom::True | Atom::False => {
            vars.push(0)?;
            vars.push(0)?;
        }
    }
    Ok(())
}

/// Adds the variables of atoms.
#[tactic(auto, using(crate::proofs::BoundSteps::vars_more))]
fn push_vars(vars: &mut Vec<i64>, atoms: &[Atom]) -> Result<(), AllocError>
    ensures { OnOk result (vars.new.items ≡ vars.old.items ++ vars_of atoms.now) }
{
    for atom in atoms {
        push_var(vars, *atom)?;
    }
    Ok(())
}

/// Adds the variables of an integer's steps.
#[tactic(auto, using(crate::proofs::BoundSteps::vars_more))]
fn push_step_vars(vars: &mut Vec<i64>, a: &OrdInt) -> Result<(), AllocError>
    ensures { OnOk result (vars.new.items ≡ vars.old.items ++ vars_of (step_atoms a.now.steps)) }
{
    for step in a.steps.as_slice() {
        push_var(vars, step.0)?;
    }
    Ok(())
}

/// Adds the variables of integers.
fn push_int_vars(vars: &mut Vec<i64>, ints: &[OrdInt]) -> Result<(), AllocError>
    ensures { OnOk result (vars.new.items ≡ vars.old.items ++ vars_of (int_atoms ints.now)) }
{
    for a in ints {
        push_step_vars(vars, a)?;
    }
    Ok(())
}

/// The different numbers of a list, ascending.
fn sorted(vars: Vec<i64>) -> Vec<i64>
    ensures { result.items ≡ ascending vars.items }
{
    let mut vars = vars;
    vars.sort_unstable();
    vars.dedup();
    vars
}

/// Whether numbers are different. It takes the time of one sort.
fn are_different(vars: Vec<i64>) -> bool
    ensures { result ≡ are_different vars.items }
{
    let count = vars.len();
    sorted(vars).len() == count
}

/// Whether atoms are literals of different variables.
pub(crate) fn are_free(alloc: Global, atoms: &[Atom]) -> Result<bool, AllocError>
    ensures { IfOk result (λ free. free ≡ are_free atoms.now) }
{
    let mut vars = Vec::new(alloc);
    push_vars(&mut vars, atoms)?;
    Ok(are_different(vars))
}

/// Whether the atoms of a list and those of an integer's steps are.
pub(crate) fn are_free_beside(alloc: Global, atoms: &[Atom], c: &OrdInt) -> Result<bool, AllocError>
    ensures { IfOk result (λ free. free ≡ are_free (atoms.now ++ step_atoms c.now.steps)) }
{
    let mut vars = Vec::new(alloc);
    push_vars(&mut vars, atoms)?;
    push_step_vars(&mut vars, c)?;
    Ok(are_different(vars))
}

/// Whether the atoms of the steps of integers are.
pub(crate) fn are_ints_free(alloc: Global, ints: &[OrdInt]) -> Result<bool, AllocError>
    ensures { IfOk result (λ free. free ≡ are_free (int_atoms ints.now)) }
{
    let mut vars = Vec::new(alloc);
    push_int_vars(&mut vars, ints)?;
    Ok(are_different(vars))
}

/// Whether the atoms of an integer's steps and those of integers are.
pub(crate) fn are_all_free(alloc: Global, c: &OrdInt, ints: &[OrdInt]) -> Result<bool, AllocError>
    ensures { IfOk result (λ free. free ≡ are_free (int_atoms (c.now ∷ ints.now))) }
{
    let mut vars = Vec::new(alloc);
    push_step_vars(&mut vars, c)?;
    push_int_vars(&mut vars, ints)?;
    Ok(are_different(vars))
}
