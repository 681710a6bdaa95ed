//! Deleting learned clauses, each from store and log at once.

ghost use Rattle.std.specs.Prelude.{◌≡◌};
ghost use Rattle.learning_solver.specs.Searching.{IsSearch, Forgets};

use crate::deletable::is_deletable;
use crate::search::Search;
use bee_list::Sequence;
use proof_check::ProofLine;
use std::alloc::AllocError;

impl Search<'_> {
    /// Deletes a clause that was learned and is no reason, with a line in the log. Where memory is wanting it stays.
    fn delete(&mut self, c: u32) -> Result<(), AllocError>
        requires { IsSearch self.old }
        ensures forgets { Forgets self.old self.new }
        ensures search { IsSearch self.new }
    {
        if !is_deletable(&self.db, c, self.base) {
            return Ok(());
        }
        let Some(at) = self.last_id() else {
            return Err(AllocError);
        };
        let alloc = *self.lines.allocator();
        let ids = Sequence::from_vec(vec![in alloc; self.db.id(c)]?);
        self.lines.reserve(1)?;
        self.db.delete(c);
        self.lines.push_reserved(ProofLine::Delete { at, ids });
        Ok(())
    }

    /// Deletes half of the candidates that may go. Where memory is wanting it stops.
    pub fn reduce(&mut self)
        requires { IsSearch self.old }
        ensures forgets { Forgets self.old self.new }
        ensures search { IsSearch self.new }
    {
        let count = self.candidates.line_up(&self.db);
        self.candidates.begin_anew();
        for _ in 0..count {
            let Some(c) = self.candidates.pop() else {
                return;
            };
            if self.delete(c).is_err() {
                return;
            }
        }
    }
}
