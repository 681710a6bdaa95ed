//! Jumping back, and adding a clause to store and log at once.

ghost use Rattle.std.specs.Prelude.{◌≡◌, ◌+◌, ◌<◌, ◌≤◌, IfOk, IfSome, None, vec_len, vec_capacity};
ghost use Rattle.std.specs.Prelude.{length, ◌^◌, FitsSigned};
ghost use Rattle.std.specs.Int.{w64};
ghost use Rattle.proof_check.specs.Lines.{Each};
ghost use Rattle.proof_check.specs.Lrat.{addition_fault};
ghost use Rattle.proof_check.specs.New.{New};
ghost use Rattle.clause_rings.specs.Clauses.{MayCome};
ghost use Rattle.learning_solver.specs.Log.{proof_behind};
ghost use Rattle.learning_solver.specs.Searching.{IsSearch, JumpsBack, Stays, IsReady, Takes};

use crate::lesson::{Lesson, owned_lits, signed_ids};
use crate::search::Search;
use proof_check::ProofLine;
use std::alloc::AllocError;

impl Search<'_> {
    /// Jumps back to the end of a level. Variables that become free keep their phases.
    pub fn jump_back(&mut self, level: u32)
        requires search { IsSearch self.old }
        requires level { level ≤ self.old.db.trail.level }
        ensures jumped { JumpsBack self.old self.new level }
        ensures search { IsSearch self.new }
    {
        for place in self.db.end_of_level(level)..self.db.height() {
            self.order.save(self.db.entry_at(place).lit);
        }
        self.order.rewind();
        self.db.backjump(level);
    }

    /// The greatest id so far, as long as it has 64 bits.
    pub fn last_id(&self) -> Option<u64>
        ensures { IfSome result (λ id. (id ≡ self.now.base + self.now.added) × (id < 2 ^ 64)) }
    {
        let id = self.base.checked_add(self.added)?;
        Some(id)
    }

    /// The id of the next clause, as long as there is one.
    fn next_id(&self) -> Option<u64>
        ensures { IfSome result (λ id. id ≡ self.now.base + self.now.added + 1) }
    {
        self.base.checked_add(self.added)?.checked_add(1)
    }

    /// The clause that the analysis shows, and room for it in store and log.
    pub fn lesson(&mut self) -> Result<Lesson, AllocError>
        requires { IsSearch self.old }
        ensures ready { IfOk result (IsReady self.new) }
        ensures stays { Stays self.old self.new }
        ensures walker { self.new.walker ≡ self.old.walker }
        ensures search { IsSearch self.new }
    {
        let alloc = *self.lines.allocator();
        let Some(id) = self.next_id() else {
            return Err(AllocError);
        };
        let lits = owned_lits(alloc, self.walker.lits())?;
        let hints = signed_ids(alloc, self.walker.hints())?;
        self.lines.reserve(1)?;
        self.db.reserve(lits.len(), 1)?;
        Ok(Lesson { id, lits, hints })
    }

    /// Adds a clause to store and log. It takes no memory.
    pub fn take(&mut self, lesson: Lesson) -> u32
        requires search { IsSearch self.old }
        requires next { lesson.id
            ≡ (proof_behind self.old.cnf.now self.old.lines.items).last + 1 }
        requires small { lesson.id < 2 ^ 64 }
        requires hints { Each (FitsSigned w64) lesson.hints }
        requires fault { addition_fault (proof_behind self.old.cnf.now self.old.lines.items) lesson.id lesson.lits
            lesson.hints
            ≡ None }
        requires new { New (proof_behind self.old.cnf.now self.old.lines.items).live lesson.lits }
        requires may_come { MayCome self.old.db.trail lesson.lits }
        requires spare_lits { length lesson.lits ≤ self.old.db.spare_lits }
        requires spare_clauses { 1 ≤ self.old.db.spare_clauses }
        requires spare_line { vec_len self.old.lines < vec_capacity self.old.lines }
        ensures takes { Takes self.old self.new lesson result }
        ensures search { IsSearch self.new }
    {
        let Lesson { id, lits, hints } = lesson;
        let clause = self.db.add(lits.as_slice(), id);
        self.lines.push_reserved(ProofLine::Add { id, lits, hints });
        self.added += 1;
        clause
    }
}
