//! Resolving a variable with its reason, and marking the variables of a clause.

ghost use Rattle.std.specs.Prelude.{◌≡◌, ◌+◌, ◌<◌, ◌≤◌, ◌++◌, ◌∷◌, [], length, slice_set};
ghost use Rattle.std.specs.Prelude.{IfOk, OnOk};
ghost use Rattle.std.specs.List.{All};
ghost use Rattle.conflict_analysis.specs.Reasons.{reason_at, HasReason};
ghost use Rattle.conflict_analysis.specs.Walking.{met_by, met_one, counts, counts_one, resolved_by};

use crate::marks::{Mark, Marks};
use crate::reasons::{Reasons, level_at};
use smallvec::SmallVec;
use std::alloc::AllocError;

/// Marks a variable that has no mark as met, and tells whether it is one of the level. The variable `over`
/// is passed over.
fn meet_one<T: Reasons>(
    marks: &mut Marks,
    source: &T,
    var: u32,
    over: u32,
    level: u32,
) -> Result<u32, AllocError>
    requires inside { var < length marks.old.cells }
    requires size { length marks.old.cells ≡ (T.trail source.now).vars + 1 }
    ensures marks { OnOk result (marks.new.cells ≡ met_one marks.old.cells over var) }
    ensures count { IfOk result (λ n. n ≡ counts_one (T.trail source.now).entries level marks.old.cells over var) }
    ensures small { IfOk result (λ n. n ≤ 1) }
    ensures size { length marks.new.cells ≡ length marks.old.cells }
{
    if var == over || !marks.is_blank(var) {
        return Ok(0);
    }
    let count = if level_at(source, var) == level { 1 } else { 0 };
    marks.set(var, Mark::Met)?;
    Ok(count)
}

/// Marks the variables of a clause that have no mark as met, and tells how many of these are of the level.
/// The variable `over` is passed over.
pub fn meet<T: Reasons>(
    marks: &mut Marks,
    source: &T,
    clause: u32,
    over: u32,
    level: u32,
) -> Result<u32, AllocError>
    requires lives { T.lives source.now clause }
    requires inside { All (λ l. l.var < length marks.old.cells) (T.named source.now clause).lits }
    requires size { length marks.old.cells ≡ (T.trail source.now).vars + 1 }
    ensures marks { OnOk result (marks.new.cells ≡ met_by marks.old.cells over (T.named source.now clause).lits) }
    ensures count { IfOk result
        (λ n. n ≡ counts (T.trail source.now).entries level marks.old.cells over (T.named source.now clause).lits) }
    ensures size { length marks.new.cells ≡ length marks.old.cells }
{
    let lits = source.lits(clause);
    let mut count = 0;
    for place in 0..lits.len() {
        count += meet_one(marks, source, lits.at(place).var, over, level)?;
    }
    Ok(count)
}

/// Resolves a variable with its reason: the reason's id goes behind the hints, and its other variables are
/// met. It tells how many of these are of the level.
pub fn resolve<T: Reasons>(
    marks: &mut Marks,
    hints: &mut SmallVec<u64, 16>,
    source: &T,
    var: u32,
    level: u32,
) -> Result<u32, AllocError>
    requires inside { var < length marks.old.cells }
    requires reason { HasReason (T.trail source.now).entries (T.lives source.now) var }
    requires lits { All (λ l. l.var < length marks.old.cells)
        (reason_at (T.named source.now) (T.trail source.now).entries var).lits }
    requires size { length marks.old.cells ≡ (T.trail source.now).vars + 1 }
    ensures marks { OnOk result
        (marks.new.cells ≡ resolved_by marks.old.cells var
        (reason_at (T.named source.now) (T.trail source.now).entries var).lits) }
    ensures hints { OnOk result (hints.new.items ≡ hints.old.items
        ++ (reason_at (T.named source.now) (T.trail source.now).entries var).id ∷ []) }
    ensures count { IfOk result
        (λ n. n ≡ counts (T.trail source.now).entries level (slice_set marks.old.cells var Mark.Resolved) var
        (reason_at (T.named source.now) (T.trail source.now).entries var).lits) }
    ensures size { length marks.new.cells ≡ length marks.old.cells }
{
    let clause = source.entry_of(var).unwrap().reason.unwrap();
    hints.push(source.id(clause))?;
    marks.set(var, Mark::Resolved)?;
    meet(marks, source, clause, var, level)
}
