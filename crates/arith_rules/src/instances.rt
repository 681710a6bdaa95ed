//! Finding an equation that a core implies, and testing one.

ghost use Rattle.std.specs.Prelude.{◌≡◌, ◌+◌, ◌↔◌, true, false, IsTrue, IsNone, IfSome};
ghost use Rattle.std.specs.Option.{is_some};
ghost use Rattle.core_forms.specs.declared.equation.Equation.{Equation};
ghost use Rattle.core_forms.specs.WellFormed.{IsWellFormed};
ghost use Rattle.rule_base.specs.Pairs.{first_sought};
ghost use Rattle.rule_base.specs.Found.{IsImplied};
ghost use Rattle.arith_rules.specs.Instances.{form_equations, equations_of, found_at, is_instance_of};

use crate::constants::by_sum3;
use crate::divisions::by_div_mod;
use crate::maxima::by_max;
use crate::products::by_prod;
use crate::sums::{by_count, by_summands, last_states};
use core_forms::{Core, Equation, Rule};
use order_ints::Atom;
use rule_base::{SoughtEquation, Steps};
use std::sync::ledger::Ledger;

/// The equations of a core's form.
fn by_form(sought: SoughtEquation, core: &Core) -> Option<(Atom, Atom)>
    requires { IsWellFormed core.now }
    ensures { result ≡ first_sought sought (form_equations core.now) }
{
    match core {
        Core::Sum3(a, b, c) => by_sum3(sought, a.get(), b.get(), c.get()),
        Core::Count(atoms, c) => by_count(sought, atoms.as_slice(), c.get()),
        Core::Sum(ints, k) => by_summands(sought, ints, k.get()),
        Core::Max(ints, c) => by_max(sought, ints.as_slice(), c.get()),
        Core::Prod(a, b, c) => by_prod(sought, a.get(), b.get(), c.get()),
        Core::DivMod(a, b, q, r) => by_div_mod(sought, a.get(), b.get(), q.get(), r.get()),
        _ => None,
    }
}

/// The equations of a core by one rule.
fn by_rule(sought: SoughtEquation, rule: Rule, core: &Core) -> Option<(Atom, Atom)>
    requires { IsWellFormed core.now }
    ensures { result ≡ first_sought sought (equations_of core.now rule) }
{
    match rule {
        Rule::Form => by_form(sought, core),
        Rule::Order | Rule::Table => None,
    }
}

/// The equation that is found: by the core's form.
fn found(core: &Core) -> Option<Equation>
    requires { IsWellFormed core.now }
    ensures { result ≡ found_at core.now }
{
    let (a, b) = by_form(SoughtEquation::Apart, core)?;
    Some(Equation {
        rule: Rule::Form,
        a,
        b,
    })
}

/// An equation that a core implies by its form, where it is a sum, a count, a maximum, a product or a
/// division; `None` where the rules of this crate have none. It counts one step, looks at bounds before it
/// walks values, goes along the core in time linear in its steps and members, and takes no memory. (Only in a
/// maximum that isn't trimmed, with True steps, can looking up the members' least values one after another
/// take longer.) Where `binds_last_alone` says that of a sum no member but the last one is bound, it takes the
/// time of that member.
pub fn find<L: Ledger>(core: &Core, steps: &mut Steps<L>) -> Option<Equation>
    requires { IsWellFormed core.now }
    ensures shape { result ≡ found_at core.now }

    // What is found is an instance, and the core implies it.
    ensures instance { IfSome result (λ e. is_instance_of core.now e ≡ true) }
    ensures implied { IfSome result (λ e. IsImplied core.now e) }

    // Nothing is found exactly where there is no instance.
    ensures none { IsNone result ↔ ((e : Equation) → is_instance_of core.now e ≡ false) }
    ensures steps { steps.new ≡ steps.old + 1 }
{
    steps.tick();
    found(core)
}

/// Whether the form states an equation of a sum's last member.
fn form_at_last(sought: SoughtEquation, core: &Core) -> bool
    requires { IsWellFormed core.now }
    ensures { IsTrue result → is_some (first_sought sought (form_equations core.now)) ≡ true }
{
    match core {
        Core::Sum(ints, k) => last_states(sought, ints, k.get()),
        _ => false,
    }
}

/// Whether a rule states an equation of a sum's last member.
fn rule_at_last(sought: SoughtEquation, rule: Rule, core: &Core) -> bool
    requires { IsWellFormed core.now }
    ensures { IsTrue result → is_some (first_sought sought (equations_of core.now rule)) ≡ true }
{
    match rule {
        Rule::Form => form_at_last(sought, core),
        Rule::Order | Rule::Table => false,
    }
}

/// Whether an equation is one that a rule of this crate states of a core. Its time is that of `find`, but it may
/// look up each least value of a maximum's members along the greatest one; what the others leave the last member of
/// a sum states is told in the time of that member.
pub fn is_instance(core: &Core, e: &Equation) -> bool
    requires { IsWellFormed core.now }
    ensures { result ≡ is_instance_of core.now e.now }
{
    if e.a == e.b {
        return false;
    }
    if rule_at_last(SoughtEquation::Pair(e.a, e.b), e.rule, core) {
        return true;
    }
    by_rule(SoughtEquation::Pair(e.a, e.b), e.rule, core).is_some()
}
