//! Finding an equation that a core implies, and testing one.

ghost use Rattle.std.specs.Prelude.{◌≡◌, ◌+◌, ◌↔◌, true, false, IsTrue, IsNone, IfSome};
ghost use Rattle.std.specs.Option.{is_some};
ghost use Rattle.core_forms.specs.declared.equation.Equation.{Equation};
ghost use Rattle.core_forms.specs.declared.edges.Known.TheVariants.{ButLast};
ghost use Rattle.core_forms.specs.Edges.{IsKnown};
ghost use Rattle.core_forms.specs.Plain.{IsPlain};
ghost use Rattle.core_forms.specs.WellFormed.{IsWellFormed};
ghost use Rattle.rule_base.specs.declared.sought.SoughtEquation.TheVariants.{Apart};
ghost use Rattle.rule_base.specs.Pairs.{first_sought};
ghost use Rattle.rule_base.specs.Found.{IsImplied};
ghost use Rattle.equi_rules.specs.OrderRows.{order_equations};
ghost use Rattle.equi_rules.specs.Instances.{form_equations, equations_of, found_at, is_instance_of};

use crate::atoms::{by_amo, by_clause, by_conj, by_parity};
use crate::comparison::by_leq;
use crate::equality::by_eq;
use crate::order::{by_last, by_order};
use core_forms::{Core, Equation, Rule};
use order_ints::Atom;
use rule_base::{SoughtEquation, Steps};
use std::sync::ledger::Ledger;

/// The equations of a core's form.
fn by_form(sought: SoughtEquation, core: &Core) -> Option<(Atom, Atom)>
    requires { IsWellFormed core.now }
    ensures { result ≡ first_sought sought (form_equations core.now) }
{
    match core {
        Core::Clause(atoms) => by_clause(sought, atoms.as_slice()),
        Core::Parity(atoms, odd) => by_parity(sought, atoms.as_slice(), *odd),
        Core::Conj(r, atoms) => by_conj(sought, *r, atoms.as_slice()),
        Core::Amo(atoms) => by_amo(sought, atoms.as_slice()),
        Core::LeqR(r, a, b) => by_leq(sought, *r, a.get(), b.get()),
        Core::EqR(r, a, b) => by_eq(sought, *r, a.get(), b.get()),
        _ => None,
    }
}

/// The equations of a core by one rule.
fn by_rule(sought: SoughtEquation, rule: Rule, core: &Core) -> Option<(Atom, Atom)>
    requires { IsWellFormed core.now }
    ensures { result ≡ first_sought sought (equations_of core.now rule) }
{
    match rule {
        Rule::Order => by_order(sought, core),
        Rule::Form => by_form(sought, core),
        Rule::Table => None,
    }
}

/// The equation that is found: by the order of the core's integers, or else by its form.
fn found(core: &Core) -> Option<Equation>
    requires { IsWellFormed core.now }
    ensures { result ≡ found_at core.now }
{
    if let Some((a, b)) = by_order(SoughtEquation::Apart, core) {
        return Some(Equation {
            rule: Rule::Order,
            a,
            b,
        });
    }
    let (a, b) = by_form(SoughtEquation::Apart, core)?;
    Some(Equation {
        rule: Rule::Form,
        a,
        b,
    })
}

/// An equation that a core implies, by the rules of this crate; `None` where they have none. It counts one
/// step, in time linear in the core's steps and members, and takes no memory.
pub fn find<L: Ledger>(core: &Core, steps: &mut Steps<L>) -> Option<Equation>
    requires { IsWellFormed core.now }
    ensures shape { result ≡ found_at core.now }

    // What is found is an instance, and the core implies it.
    ensures instance { IfSome result (λ e. is_instance_of core.now e ≡ true) }
    ensures implied { IfSome result (λ e. IsImplied core.now e) }

    // Nothing is found exactly where there is no instance.
    ensures none { IsNone result ↔ ((e : Equation) → is_instance_of core.now e ≡ false) }
    ensures steps { steps.new ≡ steps.old + 1 }
{
    steps.tick();
    found(core)
}

/// The equation of a plain core's form.
fn by_plain_form(core: &Core) -> Option<(Atom, Atom)>
    requires { IsPlain core.now }
    ensures { result ≡ first_sought Apart (form_equations core.now) }
{
    match core {
        Core::Parity(atoms, odd) => by_parity(SoughtEquation::Apart, atoms.as_slice(), *odd),
        _ => None,
    }
}

/// The equation that is found of a plain core: by its form alone.
fn found_plain(core: &Core) -> Option<Equation>
    requires { IsPlain core.now }
    ensures { result ≡ found_at core.now }
{
    let (a, b) = by_plain_form(core)?;
    Some(Equation {
        rule: Rule::Form,
        a,
        b,
    })
}

/// An equation of a plain core, as `find` gives it: the order of its integers states none, and of the forms
/// that may have long lists only a parity of at most two members states one here. It counts one step, and
/// takes constant time.
pub fn find_plain<L: Ledger>(core: &Core, steps: &mut Steps<L>) -> Option<Equation>
    requires { IsPlain core.now }
    ensures shape { result ≡ found_at core.now }

    // What is found is an instance, and the core implies it.
    ensures instance { IfSome result (λ e. is_instance_of core.now e ≡ true) }
    ensures implied { IfSome result (λ e. IsImplied core.now e) }

    // Nothing is found exactly where there is no instance.
    ensures none { IsNone result ↔ ((e : Equation) → is_instance_of core.now e ≡ false) }
    ensures steps { steps.new ≡ steps.old + 1 }
{
    steps.tick();
    found_plain(core)
}

/// The equation that is found of a core whose members are plain, but perhaps for the last one of a sum: of a sum, by
/// the order of that one alone.
fn found_last(core: &Core) -> Option<Equation>
    requires { IsKnown ButLast core.now }
    ensures { result ≡ found_at core.now }
{
    match core {
        Core::Sum(ints, _) => {
            let (a, b) = by_last(SoughtEquation::Apart, ints.as_slice())?;
            Some(Equation {
                rule: Rule::Order,
                a,
                b,
            })
        }
        _ => found_plain(core),
    }
}

/// An equation of a core whose members are plain, but perhaps for the last one of a sum, as `find` gives it: the order
/// of the others states none. It counts one step, and takes the time of that member in a sum, and else constant time.
pub fn find_last<L: Ledger>(core: &Core, steps: &mut Steps<L>) -> Option<Equation>
    requires { IsKnown ButLast core.now }
    ensures shape { result ≡ found_at core.now }

    // What is found is an instance, and the core implies it.
    ensures instance { IfSome result (λ e. is_instance_of core.now e ≡ true) }
    ensures implied { IfSome result (λ e. IsImplied core.now e) }

    // Nothing is found exactly where there is no instance.
    ensures none { IsNone result ↔ ((e : Equation) → is_instance_of core.now e ≡ false) }
    ensures steps { steps.new ≡ steps.old + 1 }
{
    steps.tick();
    found_last(core)
}

/// Whether the order of a sum's last member states an equation.
fn last_states(sought: SoughtEquation, core: &Core) -> bool
    ensures { IsTrue result → is_some (first_sought sought (order_equations core.now)) ≡ true }
{
    match core {
        Core::Sum(ints, _) => by_last(sought, ints.as_slice()).is_some(),
        _ => false,
    }
}

/// Whether a rule states an equation of a sum's last member.
fn rule_at_last(sought: SoughtEquation, rule: Rule, core: &Core) -> bool
    ensures { IsTrue result → is_some (first_sought sought (equations_of core.now rule)) ≡ true }
{
    match rule {
        Rule::Order => last_states(sought, core),
        Rule::Form | Rule::Table => false,
    }
}

/// Whether an equation is one that a rule of this crate states of a core. Its time is that of `find`; what the order of
/// a sum's last member states is told in the time of that member.
pub fn is_instance(core: &Core, e: &Equation) -> bool
    requires { IsWellFormed core.now }
    ensures { result ≡ is_instance_of core.now e.now }
{
    if e.a == e.b {
        return false;
    }
    if rule_at_last(SoughtEquation::Pair(e.a, e.b), e.rule, core) {
        return true;
    }
    by_rule(SoughtEquation::Pair(e.a, e.b), e.rule, core).is_some()
}
