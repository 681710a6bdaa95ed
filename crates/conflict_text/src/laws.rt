//! Laws of the text of a conflict, for proofs of crates above. Each function does nothing; its contract is the law.

ghost use Rattle.conflict_text.specs.ConflictSays.{ConflictLaw, Irreducible, OneNext, WrittenLaw};

/// What the text of a conflict says of a model that is taken is true, whoever wrote it; and each part of a conflict
/// that lacks one of its statements has a solution.
pub fn conflict_law()
    ensures says { ConflictLaw }
    ensures irreducible { Irreducible }
{}

/// A line leads to one standing.
pub fn one_line_law()
    ensures { OneNext }
{}

/// The text of a document of a conflict is whole, and tells its verdict.
pub fn written_law()
    ensures { WrittenLaw }
{}
