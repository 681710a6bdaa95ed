//! Where a statement is lowered.

use order_ints::MapValue;
use std::alloc::Global;

/// Where a statement is lowered. The lines of the table are its methods.
#[derive(Clone, Copy)]
pub(crate) struct Lowering<'a> {
    pub(crate) alloc: Global,
    /// What the declared names stand for.
    pub(crate) entries: &'a [MapValue],
    /// How many variables there are, behind which the fresh ones stand.
    pub(crate) vars: u32,
}
