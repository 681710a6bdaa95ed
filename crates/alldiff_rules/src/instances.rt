//! Finding an equation that a core implies, and testing one.

ghost use Rattle.std.specs.Prelude.{◌≡◌, ◌≢◌, ◌⊎◌, ◌+◌, ◌↔◌, IfOk, IfSome, IsNone, IsTrue};
ghost use Rattle.core_forms.specs.declared.equation.Equation.{Equation};
ghost use Rattle.core_forms.specs.declared.equation.Rule.TheVariants.{Form};
ghost use Rattle.core_forms.specs.WellFormed.{IsWellFormed};
ghost use Rattle.rule_base.specs.Found.{IsImplied, stated_by};
ghost use Rattle.alldiff_rules.specs.Finds.{Finds, IsOfTwo};
ghost use Rattle.alldiff_rules.specs.Instances.{IsStated, IsInstance, is_instance_of};

use crate::members::by_difference;
use crate::order::by_lex;
use core_forms::{Core, Equation, Rule};
use order_ints::Atom;
use rule_base::{SoughtEquation, Steps};
use std::alloc::{AllocError, Global};
use std::sync::ledger::Ledger;

/// The equations of a core's form.
fn by_form(
    alloc: Global,
    sought: SoughtEquation,
    core: &Core,
) -> Result<Option<(Atom, Atom)>, AllocError>
    requires sought { IsOfTwo sought }
    requires well_formed { IsWellFormed core.now }
    ensures { IfOk result (Finds sought (IsStated core.now)) }
{
    match core {
        Core::AllDiff(ints, conditions) => {
            by_difference(alloc, sought, ints.as_slice(), conditions.get().as_slice())
        }
        Core::Lex(r, strict, front, back) => {
            Ok(by_lex(
                sought,
                *r,
                *strict,
                front.get().as_slice(),
                back.get().as_slice(),
            ))
        }
        _ => Ok(None),
    }
}

/// Two atoms as an equation of a core's form.
fn equation(pair: Option<(Atom, Atom)>) -> Option<Equation>
    ensures { result ≡ stated_by Form pair }
{
    let (a, b) = pair?;
    Some(Equation {
        rule: Rule::Form,
        a,
        b,
    })
}

/// An equation that a core implies, if all-different or lexicographic order states one of it; `None` where
/// they state none. It counts one step, also where memory is refused. Its time is near-linear in the values of
/// all members, and its memory linear in these.
pub fn find<L: Ledger>(
    alloc: Global,
    core: &Core,
    steps: &mut Steps<L>,
) -> Result<Option<Equation>, AllocError>
    requires { IsWellFormed core.now }

    // What is found is an instance, and the core implies it.
    ensures instance { IfOk result (λ found. IfSome found (IsInstance core.now)) }
    ensures implied { IfOk result (λ found. IfSome found (IsImplied core.now)) }

    // Nothing is found exactly where there is no instance.
    ensures none { IfOk result (λ found. IsNone found ↔ ((e : Equation) → IsInstance core.now e → ⊥)) }
    ensures steps { steps.new ≡ steps.old + 1 }
{
    steps.tick();
    Ok(equation(by_form(alloc, SoughtEquation::Apart, core)?))
}

/// Whether two atoms are different, and a core's form states their equation in either order.
fn is_stated(alloc: Global, core: &Core, a: Atom, b: Atom) -> Result<bool, AllocError>
    requires { IsWellFormed core.now }
    ensures { IfOk result (λ told. IsTrue told
        ↔ ((a ≢ b) × (IsStated core.now a b ⊎ IsStated core.now b a))) }
{
    if a == b {
        return Ok(false);
    }
    let pair = by_form(alloc, SoughtEquation::Pair(a, b), core)?;
    Ok(pair.is_some())
}

/// Whether an equation is one that all-different or lexicographic order states of a core. Its time and memory
/// are those of `find`.
pub fn is_instance(alloc: Global, core: &Core, e: &Equation) -> Result<bool, AllocError>
    requires { IsWellFormed core.now }
    ensures instance { IfOk result (λ told. IsTrue told ↔ IsInstance core.now e.now) }
    ensures test { IfOk result (λ told. told ≡ is_instance_of core.now e.now) }
{
    match e.rule {
        Rule::Form => is_stated(alloc, core, e.a, e.b),
        Rule::Order | Rule::Table => Ok(false),
    }
}
