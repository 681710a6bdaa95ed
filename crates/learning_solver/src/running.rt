//! The loop of the search.

ghost use Rattle.std.specs.Prelude.{◌≡◌, ◌+◌, ◌≤◌, MatchResult};
ghost use Rattle.std.specs.Option.{ForSome};
ghost use Rattle.order_ints.specs.Place.{LitBelow};
ghost use Rattle.learning_solver.specs.Restarting.{SameCall, IsInTime};
ghost use Rattle.learning_solver.specs.Searching.{IsSearch, IsRunning, IsTurned, GoesForward, IsAnswered};

use crate::found::Found;
use crate::profile::Profile;
use crate::restarts::Restarts;
use crate::search::Search;
use crate::task::Task;
use search_watcher::Watcher;
use std::alloc::AllocError;

impl Search<'_> {
    /// One turn: propagation, then what follows from a conflict, or a decision.
    fn turn(&mut self, task: Task, restarts: &mut Restarts) -> Result<Option<Found>, AllocError>
        requires running { IsRunning task restarts.old self.old }
        requires in_range { ForSome task.assumption (LitBelow (self.old.cnf.now.vars + 1)) }
        ensures turned { IsTurned task self.old restarts.new self.new result }
        ensures forward { GoesForward self.old self.new }
        ensures same_call { SameCall restarts.old restarts.new }
        ensures in_time { IsInTime restarts.old restarts.new self.new.db.trail.level }
    {
        match self.db.propagate() {
            Some(conflict) if self.db.level() > 0 => self.learn(conflict, task, restarts),
            Some(conflict) => self.refute(conflict, task, restarts),
            None => self.go_on(task, restarts),
        }
    }

    /// One turn, and where it added a clause the watcher is told how many the log has.
    fn watched_turn<W: Watcher>(
        &mut self,
        task: Task,
        restarts: &mut Restarts,
        watcher: &mut W,
    ) -> Result<Option<Found>, AllocError>
        requires running { IsRunning task restarts.old self.old }
        requires in_range { ForSome task.assumption (LitBelow (self.old.cnf.now.vars + 1)) }
        ensures turned { IsTurned task self.old restarts.new self.new result }
        ensures forward { GoesForward self.old self.new }
        ensures same_call { SameCall restarts.old restarts.new }
        ensures in_time { IsInTime restarts.old restarts.new self.new.db.trail.level }
    {
        let before = self.added;
        let turned = self.turn(task, restarts);
        if before < self.added {
            watcher.learned(self.added);
        }
        turned
    }

    /// Searches until there is an answer. Where decisions go along a list there is no restart.
    pub fn find_answer<W: Watcher>(
        &mut self,
        task: Task,
        restart: bool,
        watcher: &mut W,
    ) -> Result<Found, AllocError>
        requires search { IsSearch self.old }
        requires budget { self.old.added ≤ task.budget }
        requires in_range { ForSome task.assumption (LitBelow (self.old.cnf.now.vars + 1)) }
        ensures answered { IsAnswered task restart self.old self.new result }
        ensures forward { GoesForward self.old self.new }
    {
        match self.order.profile() {
            Profile::Activity => self.run(task, restart, watcher),
            Profile::InOrder => self.run(task, false, watcher),
        }
    }

    /// Searches until there is an answer, with restarts or without.
    fn run<W: Watcher>(
        &mut self,
        task: Task,
        restart: bool,
        watcher: &mut W,
    ) -> Result<Found, AllocError>
        requires search { IsSearch self.old }
        requires budget { self.old.added ≤ task.budget }
        requires in_range { ForSome task.assumption (LitBelow (self.old.cnf.now.vars + 1)) }
        ensures answered { IsAnswered task restart self.old self.new result }
        ensures forward { GoesForward self.old self.new }
    {
        self.jump_back(0);
        let mut restarts = Restarts::new(self.added, restart);
        loop {
            match self.watched_turn(task, &mut restarts, watcher) {
                Ok(None) => {}
                Ok(Some(found)) => return Ok(found),
                Err(AllocError) => return Err(AllocError),
            }
        }
    }
}
