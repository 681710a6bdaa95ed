//! Marks of ids, and the least marked one.

ghost use Rattle.std.specs.Prelude.{◌≡◌, ◌+◌, ◌-◌, ◌++◌, ◌≤◌, [], false, length, replicate};
ghost use Rattle.std.specs.Prelude.{slice_set, vec_len, vec_capacity, OnOk, OnErr};
ghost use Rattle.fixpoint_queue.specs.Marks.{AreLonger, least_marked, false_first};

use std::alloc::{AllocError, Global};
use std::marker::Model;

/// A mark for each id, in one byte. The marks before `known` are false. Where a mark is taken away `known` goes
/// forward to the least one that is left, and back only where a mark is set before it, so that the marks are
/// gone along once, and once more for what was gone back.
#[derive(Drop)]
pub struct Marks {
    marks: Vec<bool>,
    known: usize,
}

impl Model for Marks {
    ghost use Rattle.std.specs.Prelude.{◌≤◌, List, Bool};
    ghost use Rattle.fixpoint_queue.specs.Marks.{false_first};

    ghost Value = { List Bool };

    ghost view = { λ s. s.marks.items };

    ghost invariant = { λ s. s.known ≤ false_first s.marks.items };
}

/// How many marks at the beginning are false, where so many are known to be.
fn advanced(marks: &[bool], known: usize) -> usize
    requires { known ≤ false_first marks.now }
    ensures { result ≡ false_first marks.now }
{
    let mut first = known;
    while first < marks.len() && !marks[first] {
        first += 1;
    }
    first
}

/// Puts so many marks that are false behind those that are there.
fn push_false(marks: &mut Vec<bool>, more: usize)
    requires { vec_len marks.old + more ≤ vec_capacity marks.old }
    ensures { marks.new.items ≡ marks.old.items ++ replicate more false }
{
    for k in 0..more {
        prove!(k < more);
        marks.push(false).unwrap();
    }
}

impl Marks {
    /// No id.
    pub fn new(alloc: Global) -> Marks
        ensures { result ≡ [] }
    {
        Marks {
            marks: Vec::new(alloc),
            known: 0,
        }
    }

    /// Adds ids that are not marked.
    pub fn grow(&mut self, more: usize) -> Result<(), AllocError>
        ensures marks { OnOk result (self.new ≡ self.old ++ replicate more false) }
        ensures stays { OnErr result (self.new ≡ self.old) }
    {
        self.marks.reserve(more)?;
        push_false(&mut self.marks, more);
        Ok(())
    }

    /// Adds ids that are not marked, until there are so many.
    pub fn grow_to(&mut self, ids: usize) -> Result<(), AllocError>
        ensures longer { AreLonger self.old self.new }
        ensures enough { OnOk result (ids ≤ length self.new) }
    {
        let more = ids.saturating_sub(self.marks.len());
        self.grow(more)
    }

    /// Sets the mark of an id, or takes it away.
    pub fn set(&mut self, id: u32, mark: bool)
        requires low { 1 ≤ id }
        requires high { id ≤ length self.old }
        ensures { self.new ≡ slice_set self.old (id - 1) mark }
    {
        let place = id as usize - 1;
        self.marks[place] = mark;
        if mark {
            self.known = self.known.min(place);
        } else {
            self.known = advanced(self.marks.as_slice(), self.known);
        }
    }

    /// The least marked id.
    pub fn least(&self) -> Option<u64>
        ensures { result ≡ least_marked 1 self.now }
    {
        let first = advanced(self.marks.as_slice(), self.known);
        if first < self.marks.len() {
            Some(first as u64 + 1)
        } else {
            None
        }
    }
}
