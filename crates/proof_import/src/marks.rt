//! Which variables are met on the way back from a false clause.

use order_ints::Lit;
use std::alloc::{AllocError, Global};

/// A mark for each variable, how many are set, and of which variables literals are denied, with their signs.
#[derive(Drop)]
pub(crate) struct Met {
    cells: Vec<bool>,
    denied: Vec<Option<bool>>,
    open: u32,
}

impl Met {
    /// None of so many.
    pub(crate) fn with(alloc: Global, vars: u32) -> Result<Met, AllocError> {
        let cells = vec![in alloc; false; vars as usize + 1]?;
        let denied = vec![in alloc; None; vars as usize + 1]?;
        Ok(Met {
            cells,
            denied,
            open: 0,
        })
    }

    /// Notes literals that are denied.
    pub(crate) fn deny(&mut self, lits: &[Lit]) {
        for l in lits {
            let place = l.var as usize;
            if place < self.denied.len() {
                self.denied[place] = Some(l.positive);
            }
        }
    }

    /// Takes that back.
    pub(crate) fn release(&mut self, lits: &[Lit]) {
        for l in lits {
            let place = l.var as usize;
            if place < self.denied.len() {
                self.denied[place] = None;
            }
        }
    }

    /// The sign of the literal of a variable that is denied, none where none is.
    pub(crate) fn denied(&self, var: u32) -> Option<bool> {
        let place = var as usize;
        if place < self.denied.len() {
            self.denied[place]
        } else {
            None
        }
    }

    /// Whether none is set.
    pub(crate) fn is_empty(&self) -> bool {
        self.open == 0
    }

    /// Sets one.
    pub(crate) fn set(&mut self, var: u32) {
        let place = var as usize;
        if place < self.cells.len() && !self.cells[place] {
            self.cells[place] = true;
            self.open = self.open.saturating_add(1);
        }
    }

    /// Takes one back, and answers whether it was set.
    pub(crate) fn take(&mut self, var: u32) -> bool {
        let place = var as usize;
        if place < self.cells.len() && self.cells[place] {
            self.cells[place] = false;
            self.open = self.open.saturating_sub(1);
            true
        } else {
            false
        }
    }
}
