//! An entry of the trail.

use order_ints::Lit;
use std::mem::size_of;

/// A literal that was made true.
#[derive(Clone, Copy)]
pub struct Entry {
    /// The literal that is true.
    pub lit: Lit,
    /// The level at which it was made true.
    pub level: u32,
    /// The reference to the clause that forced it, none where it was decided.
    pub reason: Option<u32>,
}

const _: () = prove!(size_of::<Entry>() <= 20);
