//! The equations that the order of an integer's steps states.

ghost use Rattle.std.specs.Prelude.{◌≡◌};
ghost use Rattle.core_forms.specs.Contents.{ints_of};
ghost use Rattle.rule_base.specs.Pairs.{first_sought};
ghost use Rattle.equi_rules.specs.OrderRows.{neighbour_equations, step_equations, last_equations, order_equations};

use core_forms::Core;
use order_ints::{Atom, OrdInt};
use rule_base::SoughtEquation;

/// The equations of the atoms of a step and of the next one above it.
fn neighbours(sought: SoughtEquation, lower: Atom, upper: Atom) -> Option<(Atom, Atom)>
    ensures { result ≡ first_sought sought (neighbour_equations lower upper) }
{
    let by_upper = sought.when(upper.is_true(), lower, Atom::True);
    let by_lower = sought.when(lower.is_false(), upper, Atom::False);
    let by_both = sought.when(upper == lower.not(), lower, Atom::True);
    by_upper.or(by_lower).or(by_both)
}

/// The equations of an integer's steps.
fn among_steps(sought: SoughtEquation, steps: &[(Atom, u128)]) -> Option<(Atom, Atom)>
    ensures { result ≡ first_sought sought (step_equations steps.now) }
{
    let (first, above) = steps.split_first()?;
    let mut lower = first.0;
    for step in above {
        let pair = neighbours(sought, lower, step.0);
        if pair.is_some() {
            return pair;
        }
        lower = step.0;
    }
    None
}

/// The equations of the order of each integer of a core.
pub(crate) fn by_order(sought: SoughtEquation, core: &Core) -> Option<(Atom, Atom)>
    ensures { result ≡ first_sought sought (order_equations core.now) }
{
    for a in core.ints() {
        let pair = among_steps(sought, a.steps.as_slice());
        if pair.is_some() {
            return pair;
        }
    }
    None
}

/// The equations of the order of the last of some integers.
pub(crate) fn by_last(sought: SoughtEquation, ints: &[OrdInt]) -> Option<(Atom, Atom)>
    ensures { result ≡ first_sought sought (last_equations ints.now) }
{
    match ints.split_last() {
        Some((last, _)) => among_steps(sought, last.steps.as_slice()),
        None => None,
    }
}
