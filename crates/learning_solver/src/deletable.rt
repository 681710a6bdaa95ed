//! Whether a clause may be deleted: it was learned, and is no reason.

ghost use Rattle.std.specs.Prelude.{IsTrue};
ghost use Rattle.learning_solver.specs.Deleting.{IsDeletable};

use clause_rings::ClauseDb;

/// Whether a clause is there, has an id above those of the CNF and more than one literal, and is no reason.
pub fn is_deletable(db: &ClauseDb, c: u32, base: u64) -> bool
    ensures { IsTrue result → IsDeletable db.now base c }
{
    db.is_live(c) && db.id(c) > base && db.len(c) > 1 && db.is_unused(c)
}
