//! Facts about the definitions that crates above may use. Each is the contract of a function that does
//! nothing.

ghost use Rattle.model_meaning.specs.Laws.{HoldsLaw, BehindLaw};

/// The test of a statement is true exactly where the statement holds.
pub fn holds_law()
    ensures { HoldsLaw }
{}

/// A statement fits, and holds, the same when declarations and values are added behind.
pub fn behind_law()
    ensures { BehindLaw }
{}
