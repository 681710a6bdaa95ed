//! The different values of members: how many there are, and at which places each stands.

ghost use Rattle.std.specs.Prelude.{◌≡◌, ◌<◌, ◌++◌, suc, IfOk, OnOk, if◌then◌else◌};
ghost use Rattle.order_ints.specs.OrderLevels.{values_of};
ghost use Rattle.order_ints.specs.OrderMade.{AreSmall};
ghost use Rattle.core_forms.specs.WellFormed.{IsSound, AreSound};
ghost use Rattle.alldiff_rules.specs.Tally.{placed_at, placed_from, listed_values, IsTally};

use crate::table::{Places, put};
use order_ints::OrdInt;
use std::alloc::{AllocError, Global};
use std::collections::BTreeMap;

/// Puts the values of a member, each with its place, behind others.
fn put_values(entries: &mut Vec<(i128, usize)>, a: &OrdInt, place: usize) -> Result<(), AllocError>
    requires { IsSound a.now }
    ensures { OnOk result (entries.new.items ≡ entries.old.items ++ placed_at place (values_of a.now)) }
{
    for (value, _) in a.levels() {
        entries.push((value, place))?;
    }
    Ok(())
}

/// The values of all members, each with the place of the member.
fn placed_values(alloc: Global, ints: &[OrdInt]) -> Result<Vec<(i128, usize)>, AllocError>
    requires { AreSound ints.now }
    ensures { IfOk result (λ entries. entries.items ≡ placed_from 0 ints.now) }
{
    let mut entries = Vec::new(alloc);
    for place in 0..ints.len() {
        put_values(&mut entries, &ints[place], place)?;
    }
    Ok(entries)
}

/// Values by up to three different places at which each stands, and how many different ones there are.
#[derive(Drop)]
pub(crate) struct Tally {
    /// The values.
    pub values: BTreeMap<i128, Places>,
    /// How many there are.
    pub count: usize,
}

/// One more than a count, unless it was counted.
fn one_more(count: usize, counted: bool) -> usize
    requires { count < usize.MAX }
    ensures { result ≡ (if counted then count else suc count) }
{
    if counted { count } else { count + 1 }
}

/// The tally of values with places.
fn tally_of(alloc: Global, entries: &[(i128, usize)]) -> Result<Tally, AllocError>
    requires { AreSmall (listed_values entries.now) }
    ensures { IfOk result (IsTally entries.now) }
{
    let mut values = BTreeMap::new(alloc);
    let mut count = 0;
    for (value, place) in entries {
        let counted = put(&mut values, *value, *place)?;
        count = one_more(count, counted);
    }
    Ok(Tally { values, count })
}

impl Tally {
    /// The tally of the values of members. It takes time near-linear in the values of all of them, and memory
    /// linear in these.
    pub fn of(alloc: Global, ints: &[OrdInt]) -> Result<Tally, AllocError>
        requires { AreSound ints.now }
        ensures { IfOk result (IsTally (placed_from 0 ints.now)) }
    {
        let entries = placed_values(alloc, ints)?;
        tally_of(alloc, entries.as_slice())
    }
}
