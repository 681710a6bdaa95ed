//! What stands against a line of a solver's answer.

/// What stands against a line of a solver's answer.
#[derive(Clone, Copy, PartialEq, Eq)]
pub enum RefusedValues {
    /// It is no next line of values that satisfy the clauses.
    Misfit,
    /// It isn't there: the answer ends before its values do.
    Missing,
}
