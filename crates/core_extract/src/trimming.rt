//! Making a part smaller by what its refutation used, as long as a fifth of it goes.

ghost use Rattle.std.specs.Prelude.{◌≡◌, length, IfOk};
ghost use Rattle.decode_minimize.specs.Answers.{IsBudget};
ghost use Rattle.core_extract.specs.Parts.{IsFit};
ghost use Rattle.core_extract.specs.Extracted.{IsReduced, IsSameModel, IsTrimming};

use crate::choosing::Group;
use crate::reduction::{Attempt, Reduction};
use crate::reply::Asker;
use crate::watching::ConflictWatcher;
use fixpoint_queue::Oracle;
use rule_base::Steps;
use std::alloc::{AllocError, Global};
use std::sync::ledger::Ledger;
use used_statements::used_statements;

/// How many queries trimming makes at most.
const MOST_TRIMS: usize = 8;

/// What came of a part that was trimmed.
#[derive(Drop)]
pub enum Trimming {
    /// A smaller part has no solution.
    Smaller(Reduction),
    /// The part stays: too little of it would go, or it is open whether a smaller one has a solution.
    Ended(Reduction),
}

/// Sets the marks of statements of a part that aren't used; how many were set.
fn mark_unused(marks: &mut [bool], used: &[bool]) -> usize {
    let mut count: usize = 0;
    let mut at: usize = 0;
    for place in 0..marks.len() {
        if !marks[place] {
            if at < used.len() && !used[at] {
                marks[place] = true;
                count = count.saturating_add(1);
            }
            at = at.saturating_add(1);
        }
    }
    count
}

/// Marks by which the statements of a part are left out that aren't used.
fn trimmed_marks(alloc: Global, out: &[bool], used: &[bool]) -> Result<Group, AllocError>
    ensures { IfOk result (λ group. length group.out.items ≡ length out.now) }
{
    let mut marks = Vec::from_slice(alloc, out)?;
    let count = mark_unused(marks.as_mut_slice(), used);
    Ok(Group { out: marks, count })
}

/// Asks about the part by these marks, which are as many.
fn trim_by<F: Oracle<L>, L: Ledger, W: ConflictWatcher>(
    reduction: Reduction,
    asker: &Asker<'_, F, W>,
    out: Vec<bool>,
    steps: &mut Steps<L>,
) -> Result<Trimming, AllocError>
    requires reduced { IsReduced F.told asker.now.options reduction }
    requires budget { IsBudget asker.now.options.budget }
    requires count { length out.items ≡ length reduction.out.items }
    ensures { IfOk result (IsTrimming F.told asker.now.options reduction) }
{
    let attempt = reduction.attempt(asker, out, steps)?;
    match attempt {
        Attempt::Smaller(smaller) => Ok(Trimming::Smaller(smaller)),
        Attempt::Solved(same, _) => Ok(Trimming::Ended(same)),
        Attempt::Spent(same, _) => Ok(Trimming::Ended(same)),
    }
}

/// Which statements of a part its refutation used, by their places in it, where that can be told.
fn used_of(alloc: Global, reduction: &Reduction) -> Result<Option<Vec<bool>>, AllocError>
    requires { IsFit reduction.now.model }
{
    let ledger = reduction.certificate.ledger.as_slice();
    let proof = reduction.certificate.proof.as_slice();
    used_statements(alloc, reduction.part(), ledger, proof)
}

/// Asks about what the refutation used, where a fifth of the part goes.
fn trim_once<F: Oracle<L>, L: Ledger, W: ConflictWatcher>(
    reduction: Reduction,
    asker: &Asker<'_, F, W>,
    steps: &mut Steps<L>,
) -> Result<Trimming, AllocError>
    requires reduced { IsReduced F.told asker.now.options reduction }
    requires budget { IsBudget asker.now.options.budget }
    ensures { IfOk result (IsTrimming F.told asker.now.options reduction) }
{
    let used = used_of(asker.alloc, &reduction)?;
    let Some(used) = used else {
        return Ok(Trimming::Ended(reduction));
    };
    let group = trimmed_marks(asker.alloc, reduction.out.as_slice(), used.as_slice())?;
    if group.count.saturating_mul(5) < used.len() || group.count == 0 {
        return Ok(Trimming::Ended(reduction));
    }
    trim_by(reduction, asker, group.out, steps)
}

/// A part of another that has no solution either: what refutations used, one after another.
pub(crate) fn trim<F: Oracle<L>, L: Ledger, W: ConflictWatcher>(
    reduction: Reduction,
    asker: &Asker<'_, F, W>,
    steps: &mut Steps<L>,
) -> Result<Reduction, AllocError>
    requires reduced { IsReduced F.told asker.now.options reduction }
    requires budget { IsBudget asker.now.options.budget }
    ensures reduced { IfOk result (IsReduced F.told asker.now.options) }
    ensures same { IfOk result (IsSameModel reduction) }
{
    let mut reduction = reduction;
    for _ in 0..MOST_TRIMS {
        let trimming = trim_once(reduction, asker, steps)?;
        match trimming {
            Trimming::Ended(trimmed) => return Ok(trimmed),
            Trimming::Smaller(smaller) => reduction = smaller,
        }
    }
    Ok(reduction)
}
