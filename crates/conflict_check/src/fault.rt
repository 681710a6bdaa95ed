//! Why a text is none of a conflict.

/// Why a text wasn't accepted.
#[derive(Clone, Copy, Debug, PartialEq, Eq)]
pub enum CoreFault {
    /// A part of the model may weigh too much, with the greatest weight that one may have.
    TooHeavy(u128),
    /// The line of this number, counted from 1, is the first that fails.
    Refused(u64),
    /// Memory was wanting.
    Memory,
}
