//! Which parts are asked about. All here is free: a part counts only by what is replied about it.
//!
//! First a part is trimmed to what its refutation used. Then groups of statements are left out of it, twice as many
//! after each that can be spared, and what is left is trimmed again.

ghost use Rattle.std.specs.Prelude.{◌≡◌, length, IfOk};
ghost use Rattle.decode_minimize.specs.Answers.{IsBudget};
ghost use Rattle.core_extract.specs.Extracted.{IsReduced, IsSameModel, IsChoice, IsLeaving};

use crate::reduction::{Attempt, Reduction, SpentPart};
use crate::reply::Asker;
use crate::rotating::keep;
use crate::trimming::trim;
use crate::watching::ConflictWatcher;
use crate::witnesses::Witnesses;
use fixpoint_queue::Oracle;
use rule_base::Steps;
use std::alloc::{AllocError, Global};
use std::sync::ledger::Ledger;

/// A part that was chosen.
#[derive(Drop)]
pub enum Choice {
    /// It has no solution.
    Part(Reduction),
    /// Of a part without one statement it is open.
    Spent(Reduction, SpentPart),
}

/// What came of leaving out a group of statements.
#[derive(Drop)]
pub enum Leaving {
    /// So many are to be left out next.
    Next(Reduction, usize),
    /// Each statement is known to be needed.
    Done(Reduction),
    /// A single one was left out, and it is open whether it can be spared.
    Spent(Reduction, SpentPart),
}

/// Marks, and how many of them were set.
#[derive(Drop)]
pub(crate) struct Group {
    pub(crate) out: Vec<bool>,
    pub(crate) count: usize,
}

/// Sets so many marks more, from the end, of statements of which it isn't known that they are needed; how many were
/// set.
fn mark_group(marks: &mut [bool], witnesses: &Witnesses, size: usize) -> usize {
    let mut count = 0;
    for place in (0..marks.len()).rev() {
        if count < size && !marks[place] && !witnesses.has(place) {
            marks[place] = true;
            count += 1;
        }
    }
    count
}

/// Marks by which a group more is left out.
fn group_of(
    alloc: Global,
    out: &[bool],
    witnesses: &Witnesses,
    size: usize,
) -> Result<Group, AllocError>
    ensures { IfOk result (λ group. length group.out.items ≡ length out.now) }
{
    let mut marks = Vec::from_slice(alloc, out)?;
    let count = mark_group(marks.as_mut_slice(), witnesses, size);
    Ok(Group { out: marks, count })
}

/// Fewer, and one at least.
fn fewer(size: usize) -> usize {
    if size < 8 { 1 } else { size / 4 }
}

/// How many are left out behind a solution: as many, where it breaks a single statement.
fn next_size(single: bool, size: usize) -> usize {
    if single { size } else { fewer(size) }
}

/// Asks about the part without a group.
fn leave_out<F: Oracle<L>, L: Ledger, W: ConflictWatcher>(
    reduction: Reduction,
    asker: &Asker<'_, F, W>,
    numbers: &[u64],
    witnesses: &mut Witnesses,
    size: usize,
    steps: &mut Steps<L>,
) -> Result<Leaving, AllocError>
    requires reduced { IsReduced F.told asker.now.options reduction }
    requires budget { IsBudget asker.now.options.budget }
    ensures { IfOk result (IsLeaving F.told asker.now.options reduction) }
{
    let group = group_of(asker.alloc, reduction.out.as_slice(), witnesses, size)?;
    let count = group.count;
    if count == 0 {
        return Ok(Leaving::Done(reduction));
    }
    let attempt = reduction.attempt(asker, group.out, steps)?;
    match attempt {
        Attempt::Smaller(smaller) => {
            let trimmed = trim(smaller, asker, steps)?;
            Ok(Leaving::Next(trimmed, size.saturating_mul(2)))
        }
        Attempt::Solved(same, a) => {
            let single = keep(asker.alloc, same.part(), numbers, witnesses, a)?;
            Ok(Leaving::Next(same, next_size(single, size)))
        }
        Attempt::Spent(same, spent) => {
            if count == 1 {
                Ok(Leaving::Spent(same, spent))
            } else {
                Ok(Leaving::Next(same, fewer(size)))
            }
        }
    }
}

/// Leaves out groups until each statement is known to be needed. So many queries suffice as there are statements, and
/// some for the groups.
fn leave_out_groups<F: Oracle<L>, L: Ledger, W: ConflictWatcher>(
    reduction: Reduction,
    asker: &Asker<'_, F, W>,
    numbers: &[u64],
    witnesses: &mut Witnesses,
    steps: &mut Steps<L>,
) -> Result<Choice, AllocError>
    requires reduced { IsReduced F.told asker.now.options reduction }
    requires budget { IsBudget asker.now.options.budget }
    ensures { IfOk result (IsChoice F.told asker.now.options reduction) }
{
    let mut reduction = reduction;
    let mut size = 1;
    for _ in 0..numbers.len().saturating_mul(2) {
        let leaving = leave_out(reduction, asker, numbers, witnesses, size, steps)?;
        match leaving {
            Leaving::Next(next, count) => {
                reduction = next;
                size = count;
            }
            Leaving::Done(done) => return Ok(Choice::Part(done)),
            Leaving::Spent(same, spent) => return Ok(Choice::Spent(same, spent)),
        }
    }
    Ok(Choice::Part(reduction))
}

/// A part of another that has no solution.
pub(crate) fn make_smaller<F: Oracle<L>, L: Ledger, W: ConflictWatcher>(
    reduction: Reduction,
    asker: &Asker<'_, F, W>,
    numbers: &[u64],
    witnesses: &mut Witnesses,
    steps: &mut Steps<L>,
) -> Result<Choice, AllocError>
    requires reduced { IsReduced F.told asker.now.options reduction }
    requires budget { IsBudget asker.now.options.budget }
    ensures { IfOk result (IsChoice F.told asker.now.options reduction) }
{
    let trimmed = trim(reduction, asker, steps)?;
    let choice = leave_out_groups(trimmed, asker, numbers, witnesses, steps)?;
    Ok(choice)
}
