//! What comes of a text.

/// What comes of a text that is checked.
#[derive(Clone, Copy, PartialEq, Eq)]
pub enum Checked<V> {
    /// It is valid, with this verdict.
    Valid(V),
    /// It is not, and this line of it is the first that fails, counted from 1.
    Refused(u64),
}
