//! Marks of the cores that were seen to be stable but for their edge.

ghost use Rattle.std.specs.Prelude.{ℕ, ◌≡◌, ◌⊎◌, ◌<◌, ◌≤◌, None, IfSome, IsTrue};
ghost use Rattle.step_kernel.specs.StableMarks.{IsMarked};

use std::alloc::{AllocError, Global};
use std::marker::Model;

/// A mark for each place, in four bytes: the round in which it was set. It counts in that round alone, so all marks are
/// taken away at once, in constant time. No variable inside of what is marked is greater than `top`, so an equation
/// that takes the label of a greater one leaves the marks.
#[derive(Drop)]
pub struct StableMarks {
    rounds: Vec<u32>,
    round: u32,
    top: u32,
}

impl Model for StableMarks {
    ghost use Rattle.step_kernel.specs.StableMarks.{Rounds, AreRounds};

    ghost Value = { Rounds };

    ghost view = { λ s. record { rounds = s.rounds.items; round = s.round; top = s.top } };

    ghost invariant = { λ s. AreRounds (record { rounds = s.rounds.items; round = s.round; top = s.top }) };
}

impl StableMarks {
    /// No place.
    pub fn new(alloc: Global) -> StableMarks
        ensures { (place : ℕ) → IsMarked result place → ⊥ }
    {
        StableMarks {
            rounds: Vec::new(alloc),
            round: 1,
            top: 0,
        }
    }

    /// Whether a place is marked.
    pub fn is_marked(&self, place: usize) -> bool
        ensures { IsTrue result → IsMarked self.now place }
    {
        place < self.rounds.len() && self.rounds[place] == self.round
    }

    /// Whether a variable is above those of what is stable.
    pub fn is_above(&self, var: u32) -> bool
        ensures { IsTrue result → self.now.top < var }
    {
        self.top < var
    }

    /// Adds places that are not marked.
    pub fn grow(&mut self, more: usize) -> Result<(), AllocError>
        ensures fewer { (place : ℕ) → IsMarked self.new place → IsMarked self.old place }
        ensures top { self.new.top ≡ self.old.top }
    {
        self.rounds
            .resize(self.rounds.len().saturating_add(more), 0)
    }

    /// Marks a place, if there is such a one, of which no variable inside is greater than one.
    pub fn mark(&mut self, place: usize, most: u32)
        ensures more { (other : ℕ) → IsMarked self.new other → IsMarked self.old other ⊎ (other ≡ place) }
        ensures top { (self.old.top ≤ self.new.top) × (most ≤ self.new.top) }
    {
        self.top = self.top.max(most);
        if place < self.rounds.len() {
            self.rounds[place] = self.round;
        }
    }

    /// Takes all marks away, in constant time, unless no variable loses its label, or one that is greater than each one
    /// inside of what is marked.
    pub fn lose(&mut self, loser: Option<u32>)
        ensures lost { IfSome loser (λ var. (place : ℕ) → IsMarked self.new place
            → IsMarked self.old place × (self.old.top < var) × (self.new.top ≡ self.old.top)) }
        ensures none { loser ≡ None → self.new ≡ self.old }
    {
        let Some(var) = loser else {
            return;
        };
        if self.top < var {
            return;
        }
        self.top = 0;
        match self.round.checked_add(1) {
            Some(round) => self.round = round,
            None => self.rounds.clear(),
        }
    }
}
