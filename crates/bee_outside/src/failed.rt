//! The answer of a call to the outside that failed.

/// A call to the outside failed. What went wrong is not told; the object's count of faults shows it.
#[derive(Clone, Copy, Debug, PartialEq, Eq)]
pub struct Failed;
