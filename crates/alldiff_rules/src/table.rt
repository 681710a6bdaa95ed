//! Tables of values, each with up to three different places at which something stands.

ghost use Rattle.std.specs.Prelude.{◌≡◌, Some, IfOk, OnOk};
ghost use Rattle.std.specs.Option.{is_some};
ghost use Rattle.std.specs.BTreeMap.{get, Updates};
ghost use Rattle.std.specs.Ordering.{int_cmp};
ghost use Rattle.alldiff_rules.specs.Table.{pair_cmp, with_place, joined, number_other, other_than, has_others};

use std::alloc::AllocError;
use std::collections::BTreeMap;

/// Up to three different places at which something stands, of which there is one at least: three where there are so
/// many, and else all.
#[derive(Clone, Copy)]
pub(crate) struct Places {
    /// One place.
    pub first: usize,
    /// Another one.
    pub second: Option<usize>,
    /// A third one.
    pub third: Option<usize>,
}

/// 1 where a place is another one, and else 0.
fn is_other(found: Option<usize>, place: usize) -> usize
    ensures { result ≡ other_than place found }
{
    match found {
        Some(found) if found != place => 1,
        _ => 0,
    }
}

impl Places {
    /// A place more, unless it stands there or there are three.
    fn with(self, place: usize) -> Places
        ensures { result ≡ with_place self place }
    {
        if self.first == place {
            return self;
        }
        match (self.second, self.third) {
            (None, _) => Places {
                second: Some(place),
                ..self
            },
            (Some(second), None) if second != place => Places {
                third: Some(place),
                ..self
            },
            (Some(_), _) => self,
        }
    }

    /// How many of them are others than a place.
    pub fn others(self, place: usize) -> usize
        ensures { result ≡ number_other place self }
    {
        is_other(Some(self.first), place)
            + is_other(self.second, place)
            + is_other(self.third, place)
    }
}

/// Whether there are so many others than a place.
pub(crate) fn has_others(count: usize, place: usize, found: Option<Places>) -> bool
    ensures { result ≡ has_others count place found }
{
    match found {
        Some(places) => count <= places.others(place),
        None => false,
    }
}

/// A place more than those that were there.
fn joined(places: Option<Places>, place: usize) -> Places
    ensures { result ≡ joined places place }
{
    match places {
        Some(places) => places.with(place),
        None => Places {
            first: place,
            second: None,
            third: None,
        },
    }
}

/// The places of a value.
pub(crate) fn found(table: &BTreeMap<i128, Places>, value: i128) -> Option<Places>
    ensures { result ≡ get int_cmp table.now value }
{
    table.get(&value).copied()
}

/// Puts a place behind those of a value, and tells whether there were any.
pub(crate) fn put(
    table: &mut BTreeMap<i128, Places>,
    value: i128,
    place: usize,
) -> Result<bool, AllocError>
    ensures updates { OnOk result
        (Updates int_cmp table.old table.new value
        (Some (joined (get int_cmp table.old value) place))) }
    ensures there { IfOk result (λ there. there ≡ is_some (get int_cmp table.old value)) }
{
    let before = table.get(&value).copied();
    let places = joined(before, place);
    table.insert(value, places)?;
    Ok(before.is_some())
}

/// Puts a place behind those of two numbers.
pub(crate) fn put_pair(
    table: &mut BTreeMap<(i128, u128), Places>,
    low: i128,
    weight: u128,
    place: usize,
) -> Result<(), AllocError>
    ensures { OnOk result
        (Updates pair_cmp table.old table.new (low, weight)
        (Some (joined (get pair_cmp table.old (low, weight)) place))) }
{
    let pair = (low, weight);
    let places = joined(table.get(&pair).copied(), place);
    table.insert(pair, places)?;
    Ok(())
}
