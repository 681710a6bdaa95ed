//! Finding an equation that a core of at most eight variables implies, and testing one.

ghost use Rattle.std.specs.Prelude.{◌≡◌, ◌+◌, ◌↔◌, ◌≤◌, true, false, length, IfOk, IsNone};
ghost use Rattle.std.specs.Prelude.{IfSome};
ghost use Rattle.core_forms.specs.declared.equation.Equation.{Equation};
ghost use Rattle.core_forms.specs.WellFormed.{IsWellFormed};
ghost use Rattle.rule_base.specs.Found.{IsImplied};
ghost use Rattle.table_rules.specs.Instances.{has_var, is_over, are_equal_over, first_equation, found_over, found_at};
ghost use Rattle.table_rules.specs.Instances.{is_instance_of};

use crate::pairs::pairs_over;
use crate::rows::{are_equal, keep_implied};
use crate::words::implies_nothing;
use core_forms::{Core, Equation, Rule, few_variables};
use order_ints::Atom;
use rule_base::Steps;
use std::alloc::{AllocError, Global};
use std::sync::ledger::Ledger;

/// Whether a variable is listed.
fn has_var(vars: &[u32], var: u32) -> bool
    ensures { result ≡ has_var vars.now var }
{
    for other in vars {
        if *other == var {
            return true;
        }
    }
    false
}

/// Whether an atom is a constant, or a literal over listed variables.
fn is_over(vars: &[u32], atom: Atom) -> bool
    ensures { result ≡ is_over vars.now atom }
{
    match atom {
        Atom::True | Atom::False => true,
        Atom::Of(literal) => has_var(vars, literal.var),
    }
}

/// Whether two atoms are over listed variables, and equally true in each row in which a core is met.
fn are_equal_over(core: &Core, vars: &[u32], a: Atom, b: Atom) -> bool
    requires well_formed { IsWellFormed core.now }
    requires few { length vars.now ≤ 8 }
    ensures { result ≡ are_equal_over core.now vars.now a b }
{
    is_over(vars, a) && is_over(vars, b) && are_equal(core, vars, a, b)
}

/// The first of listed pairs, as an equation.
fn first_equation(pairs: &[(Atom, Atom)]) -> Option<Equation>
    ensures { result ≡ first_equation pairs.now }
{
    let (a, b) = *pairs.first()?;
    Some(Equation {
        rule: Rule::Table,
        a,
        b,
    })
}

/// The first pair of atoms over listed variables that the rows of a core leave.
fn found_over(alloc: Global, core: &Core, vars: &[u32]) -> Result<Option<Equation>, AllocError>
    requires well_formed { IsWellFormed core.now }
    requires few { length vars.now ≤ 8 }
    ensures { IfOk result (λ found. found ≡ found_over core.now vars.now) }
{
    let mut pairs = pairs_over(alloc, vars)?;
    keep_implied(&mut pairs, core, vars);
    Ok(first_equation(pairs.as_slice()))
}

/// What is found of a core.
fn found(alloc: Global, core: &Core) -> Result<Option<Equation>, AllocError>
    requires { IsWellFormed core.now }
    ensures { IfOk result (λ found. found ≡ found_at core.now) }
{
    if implies_nothing(alloc, core)? {
        return Ok(None);
    }
    match few_variables(core) {
        Some(few) => found_over(alloc, core, few.as_slice()),
        None => Ok(None),
    }
}

/// An equation that a core of at most eight variables implies; `None` where it implies none, or has more
/// variables. It counts one step. A core with more variables is left at the ninth; of another one each row
/// of its truth table is judged, up to the one that leaves no equation, and memory is taken once; of a long
/// order of words it may be taken once before.
pub fn find<L: Ledger>(
    alloc: Global,
    core: &Core,
    steps: &mut Steps<L>,
) -> Result<Option<Equation>, AllocError>
    requires { IsWellFormed core.now }
    ensures shape { IfOk result (λ found. found ≡ found_at core.now) }

    // What is found is an instance, and the core implies it.
    ensures instance { IfOk result (λ found. IfSome found (λ e. is_instance_of core.now e ≡ true)) }
    ensures implied { IfOk result (λ found. IfSome found (λ e. IsImplied core.now e)) }

    // Nothing is found exactly where there is no instance.
    ensures none { IfOk result (λ found. IsNone found ↔ ((e : Equation) → is_instance_of core.now e ≡ false)) }
    ensures steps { steps.new ≡ steps.old + 1 }
{
    steps.tick();
    found(alloc, core)
}

/// Whether an equation is one that a core of at most eight variables implies, its two atoms being
/// different, and constants or literals over these variables. It takes no memory.
pub fn is_instance(core: &Core, e: &Equation) -> bool
    requires { IsWellFormed core.now }
    ensures { result ≡ is_instance_of core.now e.now }
{
    if !matches!(e.rule, Rule::Table) || e.a == e.b {
        return false;
    }
    match few_variables(core) {
        Some(few) => are_equal_over(core, few.as_slice(), e.a, e.b),
        None => false,
    }
}
