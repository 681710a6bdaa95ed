//! How a run ends.

/// What a text that was written whole says of the run.
#[derive(Clone, Copy)]
pub enum Outcome {
    /// It is what was asked for.
    Done,
    /// It refuses an input, by the first line that fails, counted from 1.
    Refused(u64),
    /// It tells that so much work gave no answer.
    Unknown(u64),
}

/// What a mode makes of the texts that it read.
#[derive(Drop)]
pub enum Made<F> {
    /// A text to be written, with its outcome.
    Text(Outcome, Vec<u8>),
    /// The first text has this fault, and nothing is written.
    Fault(F),
}

/// How a run ends.
#[derive(Drop)]
pub enum End<F> {
    /// The whole text was written and flushed, with this outcome.
    Wrote(Outcome),
    /// The first text was read, and has this fault.
    Fault(F),
    /// A text could not be read.
    Read,
    /// The text could not be written whole.
    Write,
    /// Memory is wanting.
    Memory,
}
