//! Which variables those that stay in the clause imply: a search along reasons, with a stack.
//!
//! A literal of a learned clause may go where the reasons behind it end in literals that stay, or at level 0
//! (minimisation of clauses: Sörensson and Biere, 2009). A variable fails where a decision is met, or a level
//! that the clause doesn't have. Each variable's outcome is found once.

ghost use Rattle.std.specs.Prelude.{◌≡◌, ◌≢◌, ℕ, ◌+◌, ◌<◌, ◌≤◌, ◌++◌, ◌∷◌, []};
ghost use Rattle.std.specs.Prelude.{true, false, length, slice_set, replicate, OnOk, IfOk};
ghost use Rattle.std.specs.List.{All};
ghost use Rattle.literal_trail.specs.declared.entry.Entry.{Entry};
ghost use Rattle.literal_trail.specs.Trail.{IsTrail, entry_of};
ghost use Rattle.conflict_analysis.specs.Reasons.{AreReasons, reason_at};
ghost use Rattle.conflict_analysis.specs.Marking.{mark_at};
ghost use Rattle.conflict_analysis.specs.Seeking.{IsSeeking, StayMarked, StayKept, is_covered, lit_in, MayEnter};
ghost use Rattle.conflict_analysis.specs.Seeking.{IsRoot, AreRoots, AllKnown, IsStepped, outcome_of};

use crate::marks::{Mark, Marks};
use crate::reasons::{Reasons, level_at};
use clause_arena::Literals;
use std::alloc::{AllocError, Global};

/// A variable that is sought, and the place of its reason from which on literals are to be looked at.
#[derive(Clone, Copy)]
pub struct Frame {
    /// The variable.
    pub var: u32,
    /// The place, counted from 0.
    pub place: u32,
}

/// What is known of the variables that were looked at, those that are sought, and those that are implied, in an
/// order in which each stands behind those that its reason needs.
#[derive(Drop)]
pub struct Minimiser {
    /// What is known.
    pub marks: Marks,
    /// What is sought, the one that is looked at last.
    pub stack: Vec<Frame>,
    /// What is implied.
    pub order: Vec<u32>,
}

/// The reason of a variable that has one.
fn reason<T: Reasons>(source: &T, var: u32) -> u32
    requires trail { IsTrail (T.trail source.now) }
    requires reasons { AreReasons (T.trail source.now).entries (T.named source.now) (T.lives source.now) }
    requires var { MayEnter (T.trail source.now).entries var }
    ensures named { T.named source.now result ≡ reason_at (T.named source.now) (T.trail source.now).entries var }
    ensures live { T.lives source.now result }
    ensures vars { All (λ l. l.var < (T.trail source.now).vars + 1) (T.named source.now result).lits }
    ensures var { var < (T.trail source.now).vars + 1 }
{
    source.entry_of(var).unwrap().reason.unwrap()
}

/// The first place of a reason, from a given one on, whose literal isn't covered; the number of literals where
/// all are.
fn first_uncovered(minimiser: &Marks, lits: &Literals<'_>, frame: Frame) -> u32
    requires inside { frame.place ≤ length lits.now }
    requires vars { All (λ l. l.var < length minimiser.now.cells) lits.now }
    ensures from { frame.place ≤ result }
    ensures inside { result ≤ length lits.now }
    ensures covered { (j : ℕ) → frame.place ≤ j → j < result
        → is_covered minimiser.now.cells frame.var (lit_in lits.now j).var ≡ true }
    ensures stops { result < length lits.now
        → is_covered minimiser.now.cells frame.var (lit_in lits.now result).var ≡ false }
{
    for place in frame.place..lits.len() {
        let var = lits.at(place).var;
        if var != frame.var && !minimiser.is_covered(var) {
            return place;
        }
    }
    lits.len()
}

/// Whether the clause has literals of a level. It always has those of level 0.
fn has_level(levels: &Marks, level: u32) -> bool
    requires { mark_at levels.now.cells 0 ≢ Mark.Blank }
    ensures { result ≡ false → 1 ≤ level }
{
    (level as usize) < levels.len() && !levels.is_blank(level)
}

/// Whether the search may go on to a variable: it was made true by a clause, at a level that the clause has.
fn may_enter<T: Reasons>(levels: &Marks, source: &T, var: u32) -> bool
    requires var { var ≤ (T.trail source.now).vars }
    requires trail { IsTrail (T.trail source.now) }
    requires bottom { mark_at levels.now.cells 0 ≢ Mark.Blank }
    ensures yes { result ≡ true → MayEnter (T.trail source.now).entries var }
    ensures no { result ≡ false → (e : Entry) → entry_of (T.trail source.now).entries var ≡ Some e
        → 1 ≤ e.level }
{
    match source.entry_of(var) {
        Some(entry) => entry.reason.is_some() && has_level(levels, entry.level),
        None => false,
    }
}

impl Minimiser {
    /// Nothing is known of the variables 1 to `vars`.
    pub fn with(alloc: Global, vars: u32) -> Result<Minimiser, AllocError>
        ensures { IfOk result (λ f. f.marks.cells ≡ replicate (vars + 1) Mark.Blank) }
    {
        let marks = Marks::with(alloc, vars)?;
        Ok(Minimiser {
            marks,
            stack: Vec::new(alloc),
            order: Vec::new(alloc),
        })
    }

    /// Nothing is known any more.
    pub fn clear(&mut self)
        ensures marks { self.new.marks.cells ≡ replicate (length self.old.marks.cells) Mark.Blank }
        ensures stack { self.new.stack.items ≡ [] }
        ensures order { self.new.order.items ≡ [] }
    {
        self.marks.clear();
        self.stack.clear();
        self.order.clear();
    }

    /// The variable stays.
    pub fn keep(&mut self, var: u32) -> Result<(), AllocError>
        requires { var < length self.old.marks.cells }
        ensures marks { OnOk result (self.new.marks.cells ≡ slice_set self.old.marks.cells var Mark.Kept) }
        ensures size { length self.new.marks.cells ≡ length self.old.marks.cells }
        ensures order { self.new.order.items ≡ self.old.order.items }
        ensures stack { self.new.stack.items ≡ self.old.stack.items }
    {
        self.marks.set(var, Mark::Kept)
    }

    /// The variable is implied.
    fn cover(&mut self, var: u32) -> Result<(), AllocError>
        requires { var < length self.old.marks.cells }
        ensures marks { OnOk result (self.new.marks.cells ≡ slice_set self.old.marks.cells var Mark.Implied) }
        ensures order { OnOk result (self.new.order.items ≡ self.old.order.items ++ var ∷ []) }
        ensures stack { self.new.stack.items ≡ self.old.stack.items }
        ensures size { length self.new.marks.cells ≡ length self.old.marks.cells }
    {
        self.order.push(var)?;
        self.marks.set(var, Mark::Implied)
    }

    /// The variable isn't implied, so it stays if it is in the clause.
    fn give_up(&mut self, met: &Marks, var: u32) -> Result<(), AllocError>
        requires minimiser { var < length self.old.marks.cells }
        requires met { var < length met.now.cells }
        ensures marks { OnOk result (self.new.marks.cells
            ≡ slice_set self.old.marks.cells var (outcome_of (mark_at met.now.cells var))) }
        ensures order { self.new.order.items ≡ self.old.order.items }
        ensures stack { self.new.stack.items ≡ self.old.stack.items }
        ensures size { length self.new.marks.cells ≡ length self.old.marks.cells }
    {
        let outcome = if met.is_met(var) {
            Mark::Kept
        } else {
            Mark::Failed
        };
        self.marks.set(var, outcome)
    }

    /// The variable is sought from now on.
    fn enter(&mut self, var: u32) -> Result<(), AllocError>
        requires { var < length self.old.marks.cells }
        ensures marks { OnOk result (self.new.marks.cells ≡ slice_set self.old.marks.cells var Mark.Entered) }
        ensures order { self.new.order.items ≡ self.old.order.items }
        ensures stack { OnOk result (self.new.stack.items ≡ self.old.stack.items ++ record { var = var; place = 0 }
            ∷ []) }
        ensures size { length self.new.marks.cells ≡ length self.old.marks.cells }
    {
        self.stack.push(Frame { var, place: 0 })?;
        self.marks.set(var, Mark::Entered)
    }

    /// One step of the search, with the variable that was sought last.
    fn step<T: Reasons>(
        &mut self,
        met: &Marks,
        levels: &Marks,
        source: &T,
        frame: Frame,
    ) -> Result<(), AllocError>
        requires trail { IsTrail (T.trail source.now) }
        requires reasons { AreReasons (T.trail source.now).entries (T.named source.now) (T.lives source.now) }
        requires size { length self.old.marks.cells ≡ (T.trail source.now).vars + 1 }
        requires met { length met.now.cells ≡ (T.trail source.now).vars + 1 }
        requires bottom { mark_at levels.now.cells 0 ≢ Mark.Blank }
        requires frame { MayEnter (T.trail source.now).entries frame.var }
        requires seeking { IsSeeking (T.trail source.now).entries (T.named source.now) met.now.cells
            self.old.marks.cells (self.old.stack.items ++ frame ∷ []) self.old.order.items }
        ensures stepped { OnOk result (IsStepped (T.trail source.now).entries (T.named source.now) met.now.cells
            self.old.marks.cells (self.old.stack.items ++ frame ∷ [])
            self.new.marks.cells self.new.stack.items self.new.order.items) }
        ensures size { length self.new.marks.cells ≡ length self.old.marks.cells }
    {
        let clause = reason(source, frame.var);
        let lits = source.lits(clause);
        let place = first_uncovered(&self.marks, &lits, frame);
        if place == lits.len() {
            self.cover(frame.var)?;
            return Ok(());
        }
        let next = lits.at(place).var;
        if !self.marks.is_blank(next) {
            self.give_up(met, frame.var)?;
            return Ok(());
        }
        self.stack.push(Frame {
            var: frame.var,
            place,
        })?;
        if may_enter(levels, source, next) {
            self.enter(next)?;
        } else {
            self.give_up(met, next)?;
        }
        Ok(())
    }

    /// Finds the outcome of a variable, and of those that it needs.
    fn explore<T: Reasons>(
        &mut self,
        met: &Marks,
        levels: &Marks,
        source: &T,
        root: u32,
    ) -> Result<(), AllocError>
        requires trail { IsTrail (T.trail source.now) }
        requires reasons { AreReasons (T.trail source.now).entries (T.named source.now) (T.lives source.now) }
        requires size { length self.old.marks.cells ≡ (T.trail source.now).vars + 1 }
        requires met { length met.now.cells ≡ (T.trail source.now).vars + 1 }
        requires bottom { mark_at levels.now.cells 0 ≢ Mark.Blank }
        requires root { IsRoot (T.trail source.now).entries met.now.cells root }
        requires blank { mark_at self.old.marks.cells root ≡ Mark.Blank }
        requires stack { self.old.stack.items ≡ [] }
        requires seeking { IsSeeking (T.trail source.now).entries (T.named source.now) met.now.cells
            self.old.marks.cells [] self.old.order.items }
        ensures seeking { OnOk result (IsSeeking (T.trail source.now).entries (T.named source.now) met.now.cells
            self.new.marks.cells [] self.new.order.items) }
        ensures stack { OnOk result (self.new.stack.items ≡ []) }
        ensures known { OnOk result (mark_at self.new.marks.cells root ≢ Mark.Blank) }
        ensures stay { OnOk result (StayMarked self.old.marks.cells self.new.marks.cells) }
        ensures keep { OnOk result (StayKept self.old.marks.cells self.new.marks.cells) }
        ensures size { length self.new.marks.cells ≡ length self.old.marks.cells }
    {
        if !may_enter(levels, source, root) {
            self.give_up(met, root)?;
            return Ok(());
        }
        self.enter(root)?;
        while let Some(frame) = self.stack.pop() {
            self.step(met, levels, source, frame)?;
        }
        Ok(())
    }

    /// Finds the outcome of each variable that is met, where it isn't known yet.
    pub fn seek<T: Reasons>(
        &mut self,
        met: &Marks,
        levels: &Marks,
        source: &T,
    ) -> Result<(), AllocError>
        requires trail { IsTrail (T.trail source.now) }
        requires reasons { AreReasons (T.trail source.now).entries (T.named source.now) (T.lives source.now) }
        requires size { length self.old.marks.cells ≡ (T.trail source.now).vars + 1 }
        requires met { length met.now.cells ≡ (T.trail source.now).vars + 1 }
        requires bottom { mark_at levels.now.cells 0 ≢ Mark.Blank }
        requires roots { AreRoots (T.trail source.now).entries met.now.cells self.old.marks.cells }
        requires stack { self.old.stack.items ≡ [] }
        requires seeking { IsSeeking (T.trail source.now).entries (T.named source.now) met.now.cells
            self.old.marks.cells [] self.old.order.items }
        ensures seeking { OnOk result (IsSeeking (T.trail source.now).entries (T.named source.now) met.now.cells
            self.new.marks.cells [] self.new.order.items) }
        ensures known { OnOk result (AllKnown met.now.cells self.new.marks.cells) }
        ensures keep { OnOk result (StayKept self.old.marks.cells self.new.marks.cells) }
        ensures size { length self.new.marks.cells ≡ length self.old.marks.cells }
    {
        for var in met.touched() {
            if met.is_met(*var) && self.marks.is_blank(*var) {
                self.explore(met, levels, source, *var)?;
            }
        }
        Ok(())
    }
}
