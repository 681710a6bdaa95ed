//! The phase in which each variable is decided: the one that it had last (Pipatsrisawat and Darwiche 2007), or, where a
//! call looks for a solution, the one that it had in the longest trail without a conflict, its target (Biere, Fazekas,
//! Fleury and Heisinger 2020). Such a call from time to time begins with other phases: the first ones, those of the
//! longest trail of all, the opposite ones. Nothing is promised of phases.

use crate::tunables::PHASE_CHANGE;
use clause_rings::ClauseDb;
use order_ints::Lit;
use std::alloc::{AllocError, Global};

/// What a call is likely to find.
#[derive(Clone, Copy)]
pub enum Aim {
    /// Values: variables are decided as in the longest trail without a conflict.
    Solution,
    /// That there are none: variables are decided as they were last.
    Refutation,
}

/// The phases of variables. Some five bytes a variable.
#[derive(Drop)]
pub struct Phases {
    /// What the calls look for.
    aim: Aim,
    /// The phases that variables had last.
    saved: Vec<bool>,
    /// Those of the longest trail without a conflict since the last change.
    target: Vec<Option<bool>>,
    /// The length of that trail.
    target_length: u32,
    /// Those of the longest one since the best ones were last taken.
    best: Vec<Option<bool>>,
    /// The length of that trail.
    best_length: u32,
    /// How many conflicts there were since the last change.
    conflicts: u64,
    /// How many changes there were.
    changes: u64,
}

/// Takes the phases of the first entries of a trail.
fn take_phases(phases: &mut Vec<Option<bool>>, db: &ClauseDb, length: u32) {
    for entry in db.trail().iter().take(length as usize) {
        if let Some(phase) = phases.get_mut(entry.lit.var as usize) {
            *phase = Some(entry.lit.positive);
        }
    }
}

/// The opposite of each phase.
fn invert(saved: &mut Vec<bool>) {
    for phase in saved.iter_mut() {
        *phase = !*phase;
    }
}

/// The phases that there are, in place of saved ones.
fn restore(saved: &mut Vec<bool>, best: &[Option<bool>]) {
    for (phase, best) in saved.iter_mut().zip(best.iter()) {
        if let Some(b) = best {
            *phase = *b;
        }
    }
}

impl Phases {
    /// False for all of the variables 1 to `vars`.
    pub fn with(alloc: Global, vars: u32) -> Result<Phases, AllocError> {
        let places = vars as usize + 1;
        Ok(Phases {
            aim: Aim::Refutation,
            saved: vec![in alloc; false; places]?,
            target: vec![in alloc; None; places]?,
            target_length: 0,
            best: vec![in alloc; None; places]?,
            best_length: 0,
            conflicts: 0,
            changes: 0,
        })
    }

    /// The next calls look for this.
    pub fn set_aim(&mut self, aim: Aim) {
        self.aim = aim;
    }

    /// The phase of a variable that is decided.
    pub fn of(&self, var: u32) -> bool {
        let place = var as usize;
        let saved = self.saved.get(place).copied().unwrap_or(false);
        match self.aim {
            Aim::Refutation => saved,
            Aim::Solution => match self.target.get(place) {
                Some(Some(phase)) => *phase,
                _ => saved,
            },
        }
    }

    /// Keeps the phase of a literal whose variable becomes free.
    pub fn save(&mut self, l: Lit) {
        if let Some(phase) = self.saved.get_mut(l.var as usize) {
            *phase = l.positive;
        }
    }

    /// Counts a conflict, and where a solution is looked for takes the phases of the trail below its level.
    pub fn note_conflict(&mut self, db: &ClauseDb) {
        if matches!(self.aim, Aim::Refutation) {
            return;
        }
        self.conflicts = self.conflicts.saturating_add(1);
        let length = db.end_of_level(db.level().saturating_sub(1));
        if length > self.target_length {
            self.target_length = length;
            take_phases(&mut self.target, db, length);
        }
        if length > self.best_length {
            self.best_length = length;
            take_phases(&mut self.best, db, length);
        }
    }

    /// Begins with other phases, where it is time for it: each stretch of conflicts between two changes is longer than
    /// the one before by as many as the first has.
    pub fn change(&mut self) {
        if self.conflicts < PHASE_CHANGE.saturating_mul(self.changes.saturating_add(1)) {
            return;
        }
        match self.changes % 4 {
            0 => self.saved.fill(false),
            2 => invert(&mut self.saved),
            _ => restore(&mut self.saved, self.best.as_slice()),
        }
        self.target.fill(None);
        self.target_length = 0;
        self.best_length = 0;
        self.conflicts = 0;
        self.changes = self.changes.saturating_add(1);
    }
}
