//! The equations of all-different, member by member and value by value.

ghost use Rattle.std.specs.Prelude.{◌≡◌, ◌<◌, ℕ, ℤ, length, IfOk};
ghost use Rattle.core_forms.specs.WellFormed.{IsSound, AreSound};
ghost use Rattle.order_ints.specs.OrderLevels.{levels_of};
ghost use Rattle.rule_base.specs.Pairs.{first_sought};
ghost use Rattle.alldiff_rules.specs.Finds.{Finds, IsOfTwo};
ghost use Rattle.alldiff_rules.specs.Rows.{IsRow};
ghost use Rattle.alldiff_rules.specs.RowLists.{value_equations};
ghost use Rattle.alldiff_rules.specs.Walks.{level_equations, constant_equations, equations_of_member, IsOfSomeMember};

use crate::member_tables::Tables;
use crate::narrow::choices;
use crate::twins::by_twins;
use order_ints::{Atom, OrdInt, Walk};
use rule_base::{SoughtEquation, next};
use std::alloc::{AllocError, Global};

/// The equations at a value of a member, which is reached where one atom is true and passed where another one
/// is.
fn at_value(
    sought: SoughtEquation,
    needed: bool,
    alone: bool,
    here: Atom,
    above: Atom,
) -> Option<(Atom, Atom)>
    ensures { result ≡ first_sought sought (value_equations needed alone here above) }
{
    let by_need = sought.when(needed, here, above);
    let reached = sought.when(alone, here, Atom::True);
    let passed = sought.when(alone, above, Atom::False);
    by_need.or(reached).or(passed)
}

/// The equations at the values of the member at a place: one loop along them, beside a walk that is one value
/// ahead.
fn at_values(
    sought: SoughtEquation,
    tables: &Tables,
    place: usize,
    sure: bool,
    a: &OrdInt,
) -> Option<(Atom, Atom)>
    requires { IsSound a.now }
    ensures { result ≡ first_sought sought (level_equations tables.now place sure a.now (levels_of a.now)) }
{
    let mut ahead = Walk::along(a);
    for (value, here) in a.levels() {
        let needed = tables.is_excluded(sure, value, place);
        let alone = tables.is_alone(value, place);
        let above = ahead.at(next(value));
        let pair = at_value(sought, needed, alone, here, above);
        if pair.is_some() {
            return pair;
        }
    }
    None
}

/// The equation of a constant whose value another one has, of the member at a place.
fn by_constant(
    sought: SoughtEquation,
    tables: &Tables,
    place: usize,
    condition: Atom,
    a: &OrdInt,
) -> Option<(Atom, Atom)>
    requires { IsSound a.now }
    ensures { result ≡ first_sought sought (constant_equations tables.now place condition a.now) }
{
    sought.when(tables.is_shared_constant(a, place), condition, Atom::False)
}

/// The equations of the member at a place.
fn by_member(
    sought: SoughtEquation,
    tables: &Tables,
    place: usize,
    condition: Atom,
    a: &OrdInt,
) -> Option<(Atom, Atom)>
    requires { IsSound a.now }
    ensures { result ≡ first_sought sought (equations_of_member tables.now place condition a.now) }
{
    let pair = by_constant(sought, tables, place, condition, a);
    if pair.is_some() {
        return pair;
    }
    at_values(sought, tables, place, condition.is_true(), a)
}

/// The equations of all members.
fn by_members(
    sought: SoughtEquation,
    tables: &Tables,
    ints: &[OrdInt],
    conditions: &[Atom],
) -> Option<(Atom, Atom)>
    requires lengths { length ints.now ≡ length conditions.now }
    requires sound { AreSound ints.now }
    ensures { Finds sought (IsOfSomeMember tables.now ints.now conditions.now) result }
{
    for place in 0..ints.len() {
        let pair = by_member(sought, tables, place, conditions[place], &ints[place]);
        if pair.is_some() {
            return pair;
        }
    }
    None
}

/// The equations of an all-different constraint. It takes time near-linear in the values of all members, and
/// memory linear in these.
pub(crate) fn by_difference(
    alloc: Global,
    sought: SoughtEquation,
    ints: &[OrdInt],
    conditions: &[Atom],
) -> Result<Option<(Atom, Atom)>, AllocError>
    requires sought { IsOfTwo sought }
    requires lengths { length ints.now ≡ length conditions.now }
    requires sound { AreSound ints.now }
    ensures { IfOk result (Finds sought (IsRow ints.now conditions.now)) }
{
    let choices = choices(alloc, ints, conditions)?;
    let twins = by_twins(alloc, sought, &choices, ints, conditions)?;
    if twins.is_some() {
        return Ok(twins);
    }
    let tables = Tables::of(alloc, &choices, ints, conditions)?;
    let few = sought.when(tables.too_few, Atom::True, Atom::False);
    Ok(few.or(by_members(sought, &tables, ints, conditions)))
}
