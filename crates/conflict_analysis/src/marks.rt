//! Marks of variables and of levels, which are taken away in the time of those that were set.
//!
//! An analysis marks some variables of many, so what it marks is listed, and the next one clears the list
//! (as the conflict analysis of MiniSat does, Eén and Sörensson, 2003).

ghost use Rattle.std.specs.Prelude.{◌≡◌, ◌≢◌, ◌+◌, ◌<◌, length, replicate, slice_set, IfOk, OnOk};
ghost use Rattle.std.specs.Prelude.{OnErr};
ghost use Rattle.conflict_analysis.specs.Marking.{mark_at, is_blank, is_met, IsTouched, is_covered_mark};

use std::alloc::{AllocError, Global};
use std::marker::Model;

/// What is known of a variable in an analysis.
#[derive(Clone, Copy)]
pub enum Mark {
    /// Nothing is.
    Blank,
    /// It stands in a clause that was looked at, and is not resolved.
    Met,
    /// It is resolved with its reason.
    Resolved,
    /// Whether it is implied is being sought.
    Entered,
    /// It stays in the clause.
    Kept,
    /// It is not in the clause, and not known to be implied by it.
    Failed,
    /// The variables that stay imply it.
    Implied,
}

/// A mark for each variable, blank at first.
#[derive(Drop)]
pub struct Marks {
    cells: Vec<Mark>,
    touched: Vec<u32>,
}

impl Model for Marks {
    ghost use Rattle.conflict_analysis.specs.Marking.{Marking, IsTouched};

    ghost Value = { Marking };

    ghost view = { λ m. record { cells = m.cells.items; touched = m.touched.items } };

    ghost invariant = { λ m. IsTouched m.cells.items m.touched.items };
}

impl Marks {
    /// Blank marks of the numbers 0 to `last`.
    pub fn with(alloc: Global, last: u32) -> Result<Marks, AllocError>
        ensures { IfOk result (λ m. m.cells ≡ replicate (last + 1) Mark.Blank) }
    {
        let cells = vec![in alloc; Mark::Blank; last as usize + 1]?;
        let touched = Vec::new(alloc);
        Ok(Marks { cells, touched })
    }

    /// How many numbers have a mark.
    pub fn len(&self) -> usize
        ensures { result ≡ length self.now.cells }
    {
        self.cells.len()
    }

    /// The mark of a number.
    pub fn at(&self, v: u32) -> Mark
        requires { v < length self.now.cells }
        ensures { result ≡ mark_at self.now.cells v }
    {
        self.cells[v as usize]
    }

    /// Whether a number has no mark.
    pub fn is_blank(&self, v: u32) -> bool
        requires { v < length self.now.cells }
        ensures { result ≡ is_blank (mark_at self.now.cells v) }
    {
        matches!(self.at(v), Mark::Blank)
    }

    /// Whether a number is met.
    pub fn is_met(&self, v: u32) -> bool
        requires { v < length self.now.cells }
        ensures { result ≡ is_met (mark_at self.now.cells v) }
    {
        matches!(self.at(v), Mark::Met)
    }

    /// Whether a number stays in the clause or is implied by it.
    pub fn is_covered(&self, v: u32) -> bool
        requires { v < length self.now.cells }
        ensures { result ≡ is_covered_mark (mark_at self.now.cells v) }
    {
        matches!(self.at(v), Mark::Kept | Mark::Implied)
    }

    /// Sets the mark of a number. It takes memory for the list of those that are marked.
    pub fn set(&mut self, v: u32, mark: Mark) -> Result<(), AllocError>
        requires inside { v < length self.old.cells }
        requires real { mark ≢ Mark.Blank }
        ensures set { OnOk result (self.new.cells ≡ slice_set self.old.cells v mark) }
        ensures same { OnErr result (self.new.cells ≡ self.old.cells) }
    {
        if !self.is_blank(v) {
            self.cells[v as usize] = mark;
            return Ok(());
        }
        self.touched.push(v)?;
        self.cells[v as usize] = mark;
        Ok(())
    }

    /// The numbers that have a mark.
    pub fn touched(&self) -> &[u32]
        ensures list { result.now ≡ self.now.touched }
        ensures listed { IsTouched self.now.cells result.now }
    {
        self.touched.as_slice()
    }

    /// Takes all marks away, in the time of those that were set.
    pub fn clear(&mut self)
        ensures { self.new.cells ≡ replicate (length self.old.cells) Mark.Blank }
    {
        while let Some(v) = self.touched.pop() {
            self.cells[v as usize] = Mark::Blank;
        }
    }
}
