//! The equations that link two integers value by value.

ghost use Rattle.std.specs.Prelude.{◌≡◌, ◌^◌, ◌<◌, [], ◌∷◌, ◌++◌, map, unsigned_abs, OnOk};
ghost use Rattle.core_forms.specs.WellFormed.{IsSound};
ghost use Rattle.core_forms.specs.declared.equation.Rule.TheVariants.{Form};
ghost use Rattle.arith_rules.specs.Links.{linked, linked_back, opposed, opposed_above};
ghost use Rattle.arith_rules.specs.CodeLinks.{link_of, LinkFitsAll};
ghost use Rattle.arith_rules.specs.SumRows.{raised_equations, mirrored_equations};
ghost use Rattle.equation_runs.specs.RunRows.{equation_of};

use arith_rules::Link;
use core_forms::{Equation, Rule};
use order_ints::{Atom, OrdInt, Walk};
use rule_base::next;
use std::alloc::AllocError;

/// Adds that two atoms are equal.
pub(crate) fn push_pair(run: &mut Vec<Equation>, a: Atom, b: Atom) -> Result<(), AllocError>
    ensures { OnOk result (run.new.items ≡ run.old.items ++ equation_of Form (a, b) ∷ []) }
{
    run.push(Equation {
        rule: Rule::Form,
        a,
        b,
    })?;
    Ok(())
}

/// Adds, for each value of `a`, that `a` reaches it exactly where `b` reaches what it is linked with.
pub(crate) fn push_linked(
    run: &mut Vec<Equation>,
    link: &Link,
    a: &OrdInt,
    b: &OrdInt,
) -> Result<(), AllocError>
    requires a { IsSound a.now }
    requires b { IsSound b.now }
    requires fits { LinkFitsAll link.now a.now }
    ensures { OnOk result (run.new.items
        ≡ run.old.items ++ map (equation_of Form) (linked (link_of link.now) a.now b.now)) }
{
    let mut walk = Walk::along(b);
    for (value, atom) in a.levels() {
        let target = link.of(value);
        let other = walk.at(target);
        push_pair(run, atom, other)?;
    }
    Ok(())
}

/// Adds the same with the atom of `b` first.
pub(crate) fn push_linked_back(
    run: &mut Vec<Equation>,
    link: &Link,
    a: &OrdInt,
    b: &OrdInt,
) -> Result<(), AllocError>
    requires a { IsSound a.now }
    requires b { IsSound b.now }
    requires fits { LinkFitsAll link.now a.now }
    ensures { OnOk result (run.new.items
        ≡ run.old.items ++ map (equation_of Form) (linked_back (link_of link.now) a.now b.now)) }
{
    let mut walk = Walk::along(b);
    for (value, atom) in a.levels() {
        let target = link.of(value);
        let other = walk.at(target);
        push_pair(run, other, atom)?;
    }
    Ok(())
}

/// Adds, for each value of `a`, that `a` reaches it exactly where `b` is below what it is linked with.
pub(crate) fn push_opposed(
    run: &mut Vec<Equation>,
    link: &Link,
    a: &OrdInt,
    b: &OrdInt,
) -> Result<(), AllocError>
    requires a { IsSound a.now }
    requires b { IsSound b.now }
    requires fits { LinkFitsAll link.now a.now }
    ensures { OnOk result (run.new.items
        ≡ run.old.items ++ map (equation_of Form) (opposed (link_of link.now) a.now b.now)) }
{
    let mut walk = Walk::along(b);
    for (value, atom) in a.levels() {
        let target = link.of(value);
        let other = walk.at(target);
        push_pair(run, atom, other.not())?;
    }
    Ok(())
}

/// Adds, for each value of `a`, that `a` is at most that value exactly where `b` reaches what it is linked with.
pub(crate) fn push_opposed_above(
    run: &mut Vec<Equation>,
    link: &Link,
    a: &OrdInt,
    b: &OrdInt,
) -> Result<(), AllocError>
    requires a { IsSound a.now }
    requires b { IsSound b.now }
    requires fits { LinkFitsAll link.now a.now }
    ensures { OnOk result (run.new.items
        ≡ run.old.items ++ map (equation_of Form) (opposed_above (link_of link.now) a.now b.now)) }
{
    let mut above = Walk::along(a);
    let mut walk = Walk::along(b);
    for (value, _) in a.levels() {
        let target = link.of(value);
        let other = walk.at(target);
        let beyond = next(value);
        let upper = above.at(beyond);
        push_pair(run, other, upper.not())?;
    }
    Ok(())
}

/// Adds the equations of `b` being `a` and a number, added up.
pub(crate) fn push_raised(
    run: &mut Vec<Equation>,
    k: i128,
    a: &OrdInt,
    b: &OrdInt,
) -> Result<(), AllocError>
    requires k { unsigned_abs k < 2 ^ 100 }
    requires a { IsSound a.now }
    requires b { IsSound b.now }
    ensures { OnOk result (run.new.items
        ≡ run.old.items ++ map (equation_of Form) (raised_equations k a.now b.now)) }
{
    let plus = Link::Plus(k);
    let minus = Link::Minus(k);
    push_linked(run, &plus, a, b)?;
    push_linked_back(run, &minus, b, a)?;
    Ok(())
}

/// Adds the equations of `a` and `b` being a number, added up.
pub(crate) fn push_mirrored(
    run: &mut Vec<Equation>,
    k: i128,
    a: &OrdInt,
    b: &OrdInt,
) -> Result<(), AllocError>
    requires k { unsigned_abs k < 2 ^ 100 }
    requires a { IsSound a.now }
    requires b { IsSound b.now }
    ensures { OnOk result (run.new.items
        ≡ run.old.items ++ map (equation_of Form) (mirrored_equations k a.now b.now)) }
{
    let above = Link::Above(k);
    let from = Link::From(k);
    push_opposed(run, &above, a, b)?;
    push_opposed_above(run, &from, b, a)?;
    Ok(())
}
