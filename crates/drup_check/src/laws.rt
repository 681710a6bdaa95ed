//! Laws of clauses that are shown, and of proofs. The functions do nothing: their contracts are the laws.

ghost use Rattle.drup_check.specs.Laws.{ShownIsImplied, NoneWhereEmptyIsShown, ShownByMore, NoneWhereProved};
ghost use Rattle.drup_check.specs.Laws.{NoneOfTextWhereProved};

/// What clauses that others show are like: they are true where the others are, so that none are where the empty clause
/// is shown; and more clauses show them, too.
pub fn shown_laws()
    ensures implied { ShownIsImplied }
    ensures empty { NoneWhereEmptyIsShown }
    ensures more { ShownByMore }
{}

/// What a proof shows: no valuation makes the CNF's clauses true, nor those of a text that it was read from.
pub fn proved_laws()
    ensures none { NoneWhereProved }
    ensures text { NoneOfTextWhereProved }
{}
