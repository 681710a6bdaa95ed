//! What the text of a conflict says.

/// What is said of a model.
#[derive(Clone, Copy)]
pub enum CoreVerdict {
    /// It has a solution, which is given.
    Satisfiable,
    /// So many of its statements have no solution together, and each of them is needed for that.
    Core(u64),
    /// It is open whether a part of its statements has a solution: after so many learned clauses the search was given
    /// up.
    Unknown(u64),
}
