//! The document of a conflict.

use crate::verdict::CoreVerdict;
use bee_list::Sequence;
use ledger_text::Line;
use model_meaning::Assignment;
use proof_check::ProofLine;

/// A verdict on a model and what shows it.
#[derive(Drop)]
pub struct ConflictDocument {
    /// What is said.
    pub verdict: CoreVerdict,
    /// The numbers of the statements of the part, ascending.
    pub statements: Sequence<u64>,
    /// The steps of the compilation of the model with this part of its statements.
    pub ledger: Sequence<Line>,
    /// The derivation over its clauses.
    pub proof: Sequence<ProofLine>,
    /// A solution; or, for each statement of a conflict, an assignment that meets all others of it.
    pub assignments: Sequence<Assignment>,
}
