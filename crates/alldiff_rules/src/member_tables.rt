//! All tables of an all-different constraint.

ghost use Rattle.std.specs.Prelude.{◌≡◌, ◌<◌, ◌&&◌, ℕ, ℤ, length, IfOk, IsTrue};
ghost use Rattle.std.specs.BTreeMap.{get};
ghost use Rattle.order_ints.specs.OrderRange.{IsBounded};
ghost use Rattle.core_forms.specs.WellFormed.{AreSound};
ghost use Rattle.alldiff_rules.specs.Members.{IsChoiceAt};
ghost use Rattle.alldiff_rules.specs.Table.{pair_cmp, Shows};
ghost use Rattle.alldiff_rules.specs.Narrow.{is_needed};
ghost use Rattle.alldiff_rules.specs.Tally.{placed_from, IsTally};
ghost use Rattle.alldiff_rules.specs.RowLists.{are_all_sure};
ghost use Rattle.alldiff_rules.specs.Walks.{AreTables, is_alone, is_shared_constant};

use crate::narrow::Narrow;
use crate::table::{Places, found, has_others};
use crate::tally::Tally;
use order_ints::{Atom, OrdInt};
use rule_base::is_constant;
use std::alloc::{AllocError, Global};
use std::collections::BTreeMap;

/// Whether each condition is True.
fn are_all_sure(conditions: &[Atom]) -> bool
    ensures { result ≡ are_all_sure conditions.now }
{
    for condition in conditions {
        if !condition.is_true() {
            return false;
        }
    }
    true
}

/// Whether two things are so.
fn both(first: bool, second: bool) -> bool
    ensures { result ≡ (first && second) }
{
    first && second
}

/// The tally of the values of members, if it is wanted.
fn tally_where(alloc: Global, wanted: bool, ints: &[OrdInt]) -> Result<Tally, AllocError>
    requires { AreSound ints.now }
    ensures { IfOk result (λ tally. IsTrue wanted → IsTally (placed_from 0 ints.now) tally) }
{
    if wanted {
        return Tally::of(alloc, ints);
    }
    Ok(Tally {
        values: BTreeMap::new(alloc),
        count: 0,
    })
}

/// The tables of an all-different constraint, and how many values its members have.
#[derive(Drop)]
pub(crate) struct Tables {
    /// The sure members that have one value or two.
    pub narrow: Narrow,
    /// The values of all members, where all are sure.
    pub tally: Tally,
    /// Whether all are sure, and there are fewer values than members.
    pub too_few: bool,
    /// Whether all are sure, and there are as many values as members.
    pub as_many: bool,
}

impl Tables {
    /// The tables of members, by the one of those with two values. It takes time near-linear in the values of
    /// all members, and memory linear in these.
    pub fn of(
        alloc: Global,
        choices: &BTreeMap<(i128, u128), Places>,
        ints: &[OrdInt],
        conditions: &[Atom],
    ) -> Result<Tables, AllocError>
        requires lengths { length ints.now ≡ length conditions.now }
        requires sound { AreSound ints.now }
        requires choices { (key : ℤ × ℕ)
            → Shows (λ i. (i < length ints.now) × IsChoiceAt ints.now conditions.now key.0 key.1 i)
            (get pair_cmp choices.now key) }
        ensures { IfOk result (AreTables ints.now conditions.now) }
    {
        let narrow = Narrow::of(alloc, choices, ints, conditions)?;
        let sure = are_all_sure(conditions);
        let tally = tally_where(alloc, sure, ints)?;
        let too_few = both(sure, tally.count < ints.len());
        let as_many = both(sure, tally.count == ints.len());
        Ok(Tables {
            narrow,
            tally,
            too_few,
            as_many,
        })
    }

    /// Whether a member at another place than `place` is the same sure constant as this one.
    pub fn is_shared_constant(&self, a: &OrdInt, place: usize) -> bool
        requires { IsBounded a.now }
        ensures { result ≡ is_shared_constant self.now place a.now }
    {
        is_constant(a) && self.narrow.is_constant(a.low(), place)
    }

    /// Whether the member at a place is sure, and members at other places need a value.
    pub fn is_excluded(&self, sure: bool, value: i128, place: usize) -> bool
        ensures { result ≡ (sure && is_needed self.now.narrow place value) }
    {
        sure && self.narrow.is_needed(value, place)
    }

    /// Whether there are as many values as members, which all differ, and no member at another place than
    /// `place` has a value. It takes one look into a table.
    pub fn is_alone(&self, value: i128, place: usize) -> bool
        ensures { result ≡ is_alone self.now place value }
    {
        self.as_many && !has_others(1, place, found(&self.tally.values, value))
    }
}
