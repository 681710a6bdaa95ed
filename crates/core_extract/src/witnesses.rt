//! Assignments that may show that a statement is needed. Each is tested before it counts, so nothing is promised of
//! them.

use model_meaning::Assignment;
use std::alloc::{AllocError, Global};

/// For each statement, by its place, an assignment that met all others of a part when it was kept, if one is known.
#[derive(Drop)]
pub(crate) struct Witnesses {
    kept: Vec<Option<Assignment>>,
}

impl Witnesses {
    /// None is known of so many statements.
    pub(crate) fn new(alloc: Global, count: usize) -> Result<Witnesses, AllocError> {
        let mut kept = Vec::new(alloc);
        for _ in 0..count {
            kept.push(None)?;
        }
        Ok(Witnesses { kept })
    }

    /// Whether one is known.
    pub(crate) fn has(&self, place: usize) -> bool {
        match self.kept.get(place) {
            Some(Some(_)) => true,
            _ => false,
        }
    }

    /// Keeps one.
    pub(crate) fn put(&mut self, place: usize, a: Assignment) {
        if place < self.kept.len() {
            self.kept[place] = Some(a);
        }
    }

    /// Gives the one that is kept.
    pub(crate) fn take(&mut self, place: usize) -> Option<Assignment> {
        if place < self.kept.len() {
            self.kept[place].take()
        } else {
            None
        }
    }
}
