//! Laws of what the program writes. The functions do nothing: their contracts are the laws.

ghost use Rattle.bee_cli.specs.CheckLaws.{SolvedIsAccepted, FileAnswerIsAccepted, EmptyIsRefused};
ghost use Rattle.bee_cli.specs.DecodeLaws.{DecodedSolves, CompiledIsRead, DecodedIsSolution};

/// What decoding makes of the compiled text of a model: it is read, and the lines that are written for it and an answer
/// in form are those of a solution.
pub fn decoding_law()
    ensures solves { DecodedSolves }
    ensures read { CompiledIsRead }
    ensures solution { DecodedIsSolution }
{}

/// What checking makes of answers: what is written in solve mode is accepted, and so is what is written in the mode
/// opb, beside the text that the mode opbmodel writes; an empty text is refused at line 1.
pub fn checking_law()
    ensures accepted { SolvedIsAccepted }
    ensures file_accepted { FileAnswerIsAccepted }
    ensures empty { EmptyIsRefused }
{}
