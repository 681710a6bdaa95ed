//! Declared names, and what they stand for.

use bee_list::Sequence;
use bumblebee_reader::Name;
use order_ints::MapValue;

/// What each declared name stands for.
#[derive(Drop)]
pub struct NameMap {
    /// One entry for each declaration, in their order.
    pub entries: Sequence<MapValue>,
}

/// A declared name, and what it stands for in the clauses.
#[derive(Drop)]
pub struct MapEntry {
    /// The declared name.
    pub name: Name,
    /// An atom for a Boolean, an integer in the order encoding for an integer.
    pub value: MapValue,
}
