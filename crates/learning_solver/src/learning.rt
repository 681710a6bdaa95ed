//! Learning from a conflict. The clause that is learned is false as the trail stands, by one literal of the current
//! level, and unit at an earlier one: the search goes back there, where the clause makes that literal false
//! (Marques-Silva and Sakallah 1996). How the clause comes about is told in the crate of the analysis.

ghost use Rattle.std.specs.Prelude.{◌≡◌, ◌+◌, ◌<◌, ◌≤◌, ◌^◌, IfOk, OnOk};
ghost use Rattle.clause_arena.specs.Clauses.{IsLive, lits_of};
ghost use Rattle.literal_trail.specs.Standing.{IsFalse};
ghost use Rattle.conflict_analysis.specs.Analysis.{IsAnalysed};
ghost use Rattle.learning_solver.specs.Sight.{named_in};
ghost use Rattle.learning_solver.specs.Restarting.{SameCall, IsInTime};
ghost use Rattle.learning_solver.specs.Searching.{IsSearch, IsReady, Stays, IsRunning, IsTurned, GoesForward, Teaches};
ghost use Rattle.learning_solver.specs.Searching.{TurnsBack, BeginsAnew, Forgets};

use crate::found::Found;
use crate::lesson::Lesson;
use crate::profile::Profile;
use crate::restarts::Restarts;
use crate::search::Search;
use crate::sight::analyse;
use crate::task::Task;
use std::alloc::AllocError;

impl Search<'_> {
    /// Bumps the variables of a conflict. Where decisions go along a list their activities are of no use.
    fn bump(&mut self) -> Result<(), AllocError>
        requires { IsSearch self.old }
        ensures stays { Stays self.old self.new }
        ensures walker { self.new.walker ≡ self.old.walker }
        ensures search { IsSearch self.new }
    {
        if matches!(self.order.profile(), Profile::Activity) {
            self.bumped
                .gather(&self.db, self.walker.seen(), self.walker.lits())?;
            self.order.bump(&self.db, &mut self.bumped.list);
        }
        Ok(())
    }

    /// Learns a clause from one that is false, above level 0, and bumps the variables of the conflict.
    fn study(&mut self, conflict: u32) -> Result<Lesson, AllocError>
        requires search { IsSearch self.old }
        requires live { IsLive self.old.db.clauses conflict }
        requires is_false { IsFalse self.old.db.trail.entries (lits_of self.old.db.clauses conflict) }
        requires above { 1 ≤ self.old.db.trail.level }
        ensures ready { IfOk result (IsReady self.new) }
        ensures analysed { OnOk result
            (IsAnalysed self.old.db.trail (named_in self.old.db.clauses) (named_in self.old.db.clauses conflict)
            self.new.walker) }
        ensures stays { Stays self.old self.new }
        ensures search { IsSearch self.new }
    {
        analyse(&mut self.walker, &self.db, conflict)?;
        self.bump()?;
        self.candidates.uses.use_all(self.walker.hints());
        self.lesson()
    }

    /// Goes back to where a clause is unit, adds it, and makes its first literal true.
    fn turn_back(&mut self, lesson: Lesson)
        requires search { IsSearch self.old }
        requires ready { IsReady self.old lesson }
        requires teaches { Teaches self.old lesson }
        ensures turned { TurnsBack self.old self.new lesson }
        ensures search { IsSearch self.new }
    {
        let first = lesson.first();
        let jump = self.walker.jump();
        let id = lesson.id;
        let size = lesson.lits.len();
        self.jump_back(jump);
        let clause = self.take(lesson);
        self.db.assign(first, Some(clause));
        self.candidates.note(clause, id, size, self.walker.glue());
    }

    /// Begins anew, from the end of level 0, and at times without some of the clauses that were learned.
    fn begin_anew(&mut self)
        requires { IsSearch self.old }
        ensures anew { BeginsAnew self.old self.new }
        ensures search { IsSearch self.new }
    {
        self.jump_back(0);
        if !self.candidates.are_due(self.order.profile()) {
            return;
        }
        self.reduce();
    }

    /// Where decisions go along a list, clauses go in the midst of the search.
    fn thin_out(&mut self)
        requires { IsSearch self.old }
        ensures forgets { Forgets self.old self.new }
        ensures search { IsSearch self.new }
    {
        let profile = self.order.profile();
        if matches!(profile, Profile::InOrder) && self.candidates.are_due(profile) {
            self.reduce();
        }
    }

    /// Learns from a conflict above level 0, unless the budget is spent, and deletes clauses where it is time for it.
    pub fn learn(
        &mut self,
        conflict: u32,
        task: Task,
        restarts: &mut Restarts,
    ) -> Result<Option<Found>, AllocError>
        requires running { IsRunning task restarts.old self.old }
        requires live { IsLive self.old.db.clauses conflict }
        requires is_false { IsFalse self.old.db.trail.entries (lits_of self.old.db.clauses conflict) }
        requires above { 1 ≤ self.old.db.trail.level }
        ensures turned { IsTurned task self.old restarts.new self.new result }
        ensures forward { GoesForward self.old self.new }
        ensures same_call { SameCall restarts.old restarts.new }
        ensures in_time { IsInTime restarts.old restarts.new self.new.db.trail.level }
    {
        match self.learn_one(conflict, task, restarts) {
            Ok(None) => {
                self.thin_out();
                Ok(None)
            }
            ended => ended,
        }
    }

    /// Learns from a conflict above level 0, unless the budget is spent.
    fn learn_one(
        &mut self,
        conflict: u32,
        task: Task,
        restarts: &mut Restarts,
    ) -> Result<Option<Found>, AllocError>
        requires running { IsRunning task restarts.old self.old }
        requires live { IsLive self.old.db.clauses conflict }
        requires is_false { IsFalse self.old.db.trail.entries (lits_of self.old.db.clauses conflict) }
        requires above { 1 ≤ self.old.db.trail.level }
        ensures turned { IsTurned task self.old restarts.new self.new result }
        ensures forward { GoesForward self.old self.new }
        ensures same_call { SameCall restarts.old restarts.new }
        ensures in_time { IsInTime restarts.old restarts.new self.new.db.trail.level }
    {
        if self.added >= task.budget {
            return Ok(Some(Found::Spent));
        }
        let lesson = match self.study(conflict) {
            Ok(lesson) => lesson,
            Err(AllocError) => return Err(AllocError),
        };
        self.turn_back(lesson);
        if restarts.learn() {
            self.begin_anew();
        }
        Ok(None)
    }
}
