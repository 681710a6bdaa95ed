//! A law of logs, the contract of a function that does nothing.

ghost use Rattle.learning_solver.specs.Log.{EmptyClauseLaw};

/// A log whose lines are fresh has none where the CNF holds the empty clause: whatever is added is not new there, and
/// without an addition nothing can be deleted.
pub fn empty_clause_law()
    ensures { EmptyClauseLaw }
{}
