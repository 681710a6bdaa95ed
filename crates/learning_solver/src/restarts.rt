//! When a call of the search begins anew: stretches whose lengths follow Luby's sequence, counted anew in each call.

ghost use Rattle.std.specs.Prelude.{◌≡◌, ◌+◌, ◌<◌, ◌^◌, ◌≤◌};
ghost use Rattle.learning_solver.specs.Restarting.{Counts};

use search_laws::stretch_length;

/// How far a call has come.
#[derive(Clone, Copy)]
pub struct Restarts {
    /// How many additions the log had when the call began.
    pub start: u64,
    /// Whether it restarts.
    pub restart: bool,
    /// How many stretches are done.
    pub stretches: u64,
    /// How many clauses this stretch has learned.
    pub learned: u64,
}

impl Restarts {
    /// At the start of a call.
    pub fn new(start: u64, restart: bool) -> Restarts
        ensures { result ≡ record { start = start; restart = restart; stretches = 0; learned = 0 } }
    {
        Restarts {
            start,
            restart,
            stretches: 0,
            learned: 0,
        }
    }

    /// Counts a clause, and tells whether its stretch is done.
    pub fn learn(&mut self) -> bool
        requires few { self.old.stretches < 2 ^ 58 }
        requires fits { self.old.learned + 1 < 2 ^ 64 }
        ensures { Counts self.old self.new result }
    {
        self.learned += 1;
        if !self.restart || self.learned < stretch_length(self.stretches + 1) {
            return false;
        }
        self.stretches += 1;
        self.learned = 0;
        true
    }
}
