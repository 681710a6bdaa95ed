//! How the reading of a text ends.

/// How the reading of a text ends. Lines are counted from 1.
#[derive(Clone, Copy)]
pub enum TextEnd<C> {
    /// The text is whole.
    Whole,
    /// The line of this number is the first that isn't the next, for this cause.
    Misfit(u64, C),
    /// The line of this number is missing: the text ends too early, or bytes stand behind its last line feed.
    Missing(u64),
}
