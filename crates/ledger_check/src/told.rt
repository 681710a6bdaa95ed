//! The value of a name, as a text tells it.

/// The word of a Boolean, or a number.
#[derive(Clone, Copy)]
pub enum Told {
    /// `true` or `false`.
    Truth(bool),
    /// A number.
    Number(i64),
}
