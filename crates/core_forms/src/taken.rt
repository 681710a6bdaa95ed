//! Cores taken apart, so that what is made of one takes over its lists.

use crate::form::Core;
use bee_list::Sequence;
use order_ints::{Atom, OrdInt};

/// What a core of a form that may be compound held. A core itself cannot be taken apart by value outside
/// this crate.
#[derive(Drop)]
pub enum Taken {
    /// The members of a parity, and whether the number of true ones is odd.
    Xor(Sequence<Atom>, bool),
    /// The integers of a sum of two.
    Added(OrdInt, OrdInt, OrdInt),
    /// The members of a count, and their number.
    Counted(Sequence<Atom>, OrdInt),
    /// The members of a sum, and their total.
    Summed(Sequence<OrdInt>, i128),
    /// The members that differ, and their conditions.
    Differing(Sequence<OrdInt>, Sequence<Atom>),
    /// The members of at-most-one.
    AtMostOne(Sequence<Atom>),
    /// The truth of an order of words, whether it is strict, and both lists.
    Words(Atom, bool, Sequence<OrdInt>, Sequence<OrdInt>),
    /// A core of another form, as it is.
    Other(Core),
}
