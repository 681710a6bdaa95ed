//! An oracle that tells one equation at one core.

ghost use Rattle.std.specs.Prelude.{◌≡◌, ◌↔◌, ◌∷◌, [], IsTrue};
ghost use Rattle.state_rows.specs.ToldOnce.{first_variable, told_core, told_equation};

use core_forms::{Core, Equation, Known, Rule};
use core_rules::FoundRun;
use fixpoint_queue::Oracle;
use order_ints::{Atom, Lit};
use rule_base::Steps;
use std::alloc::{AllocError, Global};
use std::sync::ledger::Ledger;

/// Who is asked in a row.
#[derive(Clone, Copy, Debug)]
pub enum Asked {
    AllRules,
    Silence,
    OneEquation,
}

/// Tells that variable 1 is true, at the clause that has it alone, and nothing else.
#[derive(Clone, Copy, Debug)]
pub struct ToldOnce;

/// The variable 1.
fn first_variable() -> Atom
    ensures { result ≡ first_variable }
{
    Atom::Of(Lit {
        var: 1,
        positive: true,
    })
}

/// Whether atoms are variable 1 alone.
fn are_first_alone(atoms: &[Atom]) -> bool
    ensures { IsTrue result ↔ (atoms.now ≡ first_variable ∷ []) }
{
    atoms.len() == 1 && atoms[0] == first_variable()
}

/// Whether a core is the clause that has variable 1 alone.
fn is_told_core(core: &Core) -> bool
    ensures { IsTrue result ↔ (core.now ≡ told_core) }
{
    match core {
        Core::Clause(atoms) => are_first_alone(atoms.as_slice()),
        _ => false,
    }
}

/// The equation.
fn told_equation() -> Equation
    ensures { result ≡ told_equation }
{
    Equation {
        rule: Rule::Form,
        a: first_variable(),
        b: Atom::True,
    }
}

impl<L: Ledger> Oracle<L> for ToldOnce {
    ghost use Rattle.state_rows.specs.ToldOnce.{IsToldOnce};

    ghost told = { IsToldOnce };

    fn ask(
        &self,
        alloc: Global,
        core: &Core,
        _known: Known,
        steps: &mut Steps<L>,
    ) -> Result<Option<FoundRun>, AllocError> {
        steps.tick();
        if is_told_core(core) {
            return Ok(Some(FoundRun {
                equation: told_equation(),
                run: Vec::new(alloc),
            }));
        }
        Ok(None)
    }
}
