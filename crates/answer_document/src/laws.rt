//! Laws of answers, for proofs of crates above and for those who use several solvers. Each function does nothing; its
//! contract is the law.

ghost use Rattle.answer_document.specs.Laws.{ClaimLaw, NoneContradicts, OptimaAgree, OptimumIsBest};
ghost use Rattle.answer_document.specs.Told.{TextTellsAnswer, ValidTellsAnswer};

/// What a valid answer says of a model that is taken is true, whoever wrote it.
pub fn claim_law()
    ensures { ClaimLaw }
{}

/// True answers never contradict each other: where there is no solution none gives one, two optima have the same
/// values, and no best solution of a search that was given up is better than an optimum.
pub fn agreement_law()
    ensures none { NoneContradicts }
    ensures optima { OptimaAgree }
    ensures best { OptimumIsBest }
{}

/// The text of a document tells its answer: documents whose texts are equal, for the same declarations, have the same
/// verdict and the same assignment, and, where the verdict has a certificate, the same ledger and the same derivations.
/// So a text is a valid answer with one verdict and one assignment at most.
pub fn text_law()
    ensures text { TextTellsAnswer }
    ensures valid { ValidTellsAnswer }
{}
