//! The fault of a whole text.

/// The greatest number of bytes of a text.
pub const LONGEST_TEXT: usize = 16_777_216;

/// Why no CNF is read from a text.
#[derive(Clone, Copy, Debug, PartialEq, Eq)]
pub enum CnfTextFault {
    /// The text has more than 16,777,216 bytes.
    TooLong,
    /// The first line that doesn't fit, counted from 1.
    Form(u64),
}
