//! How a clause stands under partial values.

use order_ints::Lit;

/// What partial values make of a clause.
#[derive(Clone, Copy, PartialEq, Eq)]
pub enum Standing {
    /// Each literal is false.
    Refuted,
    /// Each literal but this one is false, and this one has no value.
    UnitFor(Lit),
    /// A literal is true, or two or more have no value.
    Neither,
}
