//! The parts of the text of a conflict.

/// Which line of the text may stand next.
#[derive(Clone, Copy)]
pub enum Part {
    /// The version of the form.
    Version,
    /// The verdict.
    Verdict,
    /// A statement of the part, or the ledger.
    Statements,
    /// A step of the compilation, or the derivation.
    Ledger,
    /// A line of the derivation, or what stands behind it.
    Proof,
    /// The value of the next name, or what stands behind the last one.
    Values,
    /// Nothing.
    End,
}
