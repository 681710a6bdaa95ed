//! The document of an answer.

use crate::verdict::Verdict;
use bee_list::Sequence;
use ledger_text::Line;
use model_meaning::Assignment;
use proof_check::ProofLine;

/// An answer with its certificate.
#[derive(Drop)]
pub struct Document {
    /// What is answered.
    pub verdict: Verdict,
    /// A solution, where the verdict gives one.
    pub assignment: Option<Assignment>,
    /// The steps of the compilation. The text leaves them out where a solution alone is what was asked for.
    pub ledger: Sequence<Line>,
    /// The derivation over the CNF of the compilation's last state. The text leaves it out where it leaves out the
    /// ledger.
    pub proof: Sequence<ProofLine>,
    /// Where there are two objectives, and the first one is fixed: the derivation over that CNF and the clause that the
    /// first objective is no worse than its fixed value.
    pub second: Option<Sequence<ProofLine>>,
}
