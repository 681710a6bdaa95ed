//! The parts of a document.

/// Which line of a document may stand next.
#[derive(Clone, Copy, PartialEq, Eq)]
pub(crate) enum Part {
    /// The version of the form.
    Version,
    /// The verdict.
    Verdict,
    /// Behind a verdict of a search that was given up: the values of a best solution, or the ledger.
    Best,
    /// The value of the next name, or what stands behind the last one.
    Values,
    /// What stands behind a verdict without an assignment.
    Unanswered,
    /// A step of the compilation, or the derivation.
    Ledger,
    /// A line of the derivation, or what stands behind it.
    Proof,
    /// A line of the second derivation, or the end.
    Second,
    /// Nothing.
    End,
}
