//! Why nothing is imported for a model, and what stands against a line of what was found.

use model_texts::ModelFault;
use thiserror::Error;

/// Why nothing is imported for a model.
#[derive(Debug, Drop, Error)]
pub enum CertifyFault {
    /// Its text has this fault.
    #[error("{0}")]
    Model(ModelFault),
    /// It has two objectives.
    #[error("model: two objectives")]
    TwoObjectives,
}

/// What stands against a line of what another solver found.
#[derive(Clone, Copy)]
pub enum RefusedFinding {
    /// It is no next line of values that satisfy the clauses, or of a refutation.
    Misfit,
    /// It isn't there: the text ends before it shows something.
    Missing,
}

/// What stands against a line: it is missing where it is behind the last one, which needs no end.
pub(crate) fn fault_at(text: &[u8], line: u64) -> RefusedFinding {
    let ended = text.iter().filter(|byte| **byte == b'\n').count() as u64;
    let open = !text.is_empty() && !text.ends_with(b"\n");
    if line > ended && line - ended > u64::from(open) {
        RefusedFinding::Missing
    } else {
        RefusedFinding::Misfit
    }
}
