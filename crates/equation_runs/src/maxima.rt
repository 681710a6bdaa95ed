//! The equations that link a greatest member with the integer that it is.

ghost use Rattle.std.specs.Prelude.{◌≡◌, ◌++◌, [], ◌∷◌, map, int_lt, OnOk};
ghost use Rattle.core_forms.specs.WellFormed.{IsSound, AreSound};
ghost use Rattle.core_forms.specs.declared.equation.Rule.TheVariants.{Form};
ghost use Rattle.rule_base.specs.Pairs.{only_if};
ghost use Rattle.arith_rules.specs.Links.{alike_where, alike_back};
ghost use Rattle.arith_rules.specs.MaxRows.{leader_equations};
ghost use Rattle.arith_rules.specs.Tops.{leader_above, leaders_above};
ghost use Rattle.equation_runs.specs.RunRows.{equation_of};

use crate::links::push_pair;
use arith_rules::Tops;
use core_forms::Equation;
use order_ints::{Atom, OrdInt, Walk};
use std::alloc::AllocError;

/// Adds that two atoms are equal, where a test holds.
fn push_where(run: &mut Vec<Equation>, test: bool, a: Atom, b: Atom) -> Result<(), AllocError>
    ensures { OnOk result (run.new.items
        ≡ run.old.items ++ map (equation_of Form) (only_if test ((a, b) ∷ []))) }
{
    if test {
        push_pair(run, a, b)?;
    }
    Ok(())
}

/// Adds, for each value of `a` above a number, that `a` reaches it exactly where `b` does.
fn push_alike(
    run: &mut Vec<Equation>,
    least: &i128,
    a: &OrdInt,
    b: &OrdInt,
) -> Result<(), AllocError>
    requires a { IsSound a.now }
    requires b { IsSound b.now }
    ensures { OnOk result (run.new.items
        ≡ run.old.items ++ map (equation_of Form) (alike_where (int_lt least.now) a.now b.now)) }
{
    let mut walk = Walk::along(b);
    for (value, atom) in a.levels() {
        let other = walk.at(value);
        push_where(run, *least < value, atom, other)?;
    }
    Ok(())
}

/// Adds the same with the atom of `b` first.
fn push_alike_back(
    run: &mut Vec<Equation>,
    least: &i128,
    a: &OrdInt,
    b: &OrdInt,
) -> Result<(), AllocError>
    requires a { IsSound a.now }
    requires b { IsSound b.now }
    ensures { OnOk result (run.new.items
        ≡ run.old.items ++ map (equation_of Form) (alike_back (int_lt least.now) a.now b.now)) }
{
    let mut walk = Walk::along(b);
    for (value, atom) in a.levels() {
        let other = walk.at(value);
        push_where(run, *least < value, other, atom)?;
    }
    Ok(())
}

/// Adds that `c` and a member are linked at the values above a number, where the member reaches some.
fn push_leader(
    run: &mut Vec<Equation>,
    least: &i128,
    c: &OrdInt,
    a: &OrdInt,
) -> Result<(), AllocError>
    requires c { IsSound c.now }
    requires a { IsSound a.now }
    ensures { OnOk result (run.new.items
        ≡ run.old.items ++ map (equation_of Form) (leader_above least.now c.now a.now)) }
{
    let high = a.high();
    if *least < high {
        push_alike(run, least, c, a)?;
        push_alike_back(run, least, a, c)?;
    }
    Ok(())
}

/// Adds those of each member.
fn push_leaders_above(
    run: &mut Vec<Equation>,
    least: &i128,
    c: &OrdInt,
    ints: &[OrdInt],
) -> Result<(), AllocError>
    requires c { IsSound c.now }
    requires ints { AreSound ints.now }
    ensures { OnOk result (run.new.items
        ≡ run.old.items ++ map (equation_of Form) (leaders_above least.now c.now ints.now)) }
{
    for a in ints {
        push_leader(run, least, c, a)?;
    }
    Ok(())
}

/// Adds, for `c` being the greatest of members, that it is linked with the one that alone reaches its greatest
/// values. The second of the greatest values tells which these are.
pub(crate) fn push_leaders(
    run: &mut Vec<Equation>,
    ints: &[OrdInt],
    c: &OrdInt,
) -> Result<(), AllocError>
    requires ints { AreSound ints.now }
    requires c { IsSound c.now }
    ensures { OnOk result (run.new.items
        ≡ run.old.items ++ map (equation_of Form) (leader_equations c.now ints.now ints.now)) }
{
    let tops = Tops::of(ints);
    push_leaders_above(run, &tops.second, c, ints)?;
    Ok(())
}
