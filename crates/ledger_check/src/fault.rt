//! Why a text is no valid answer to a model.

use proof_check::ProofFault;
use step_kernel::StepFault;

/// What stands against a line of a document, in the order in which the tests of a line are made.
#[derive(Clone, Copy, Debug, PartialEq, Eq)]
pub enum Why {
    /// The line isn't the next of the form, or is missing.
    Shape,
    /// The line doesn't go with the goal.
    Goal,
    /// The value of a name isn't in its domain.
    Value,
    /// The statement with this number doesn't hold of the values before the line.
    Statement(u64),
    /// The objectives don't have the stated values.
    Objective,
    /// The line is no step of the compilation.
    Step(StepFault),
    /// The line is no step of the derivation.
    Proof(ProofFault),
    /// What the document concludes isn't shown by what stands before the line.
    Open,
}

/// Why a text wasn't accepted.
#[derive(Clone, Copy, Debug, PartialEq, Eq)]
pub enum CheckFault {
    /// The model weighs too much, with its weight.
    TooHeavy(u128),
    /// The line of this number, counted from 1, is the first that fails.
    Refused {
        /// The number of the line.
        line: u64,
        /// What stands against it.
        why: Why,
    },
    /// Memory was wanting.
    Memory,
}
