//! Laws of texts. The function does nothing: its contract is the laws.

ghost use Rattle.lrat_check.specs.Laws.{ProofsFit, OneFails};

use proof_check::text_laws;

/// Each text has one answer: no line of a proof fails, and of another text one line is the first that does.
pub fn answer_laws()
    ensures proofs { ProofsFit }
    ensures faults { OneFails }
{
    text_laws();
}
