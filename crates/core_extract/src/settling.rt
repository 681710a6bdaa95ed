//! The last pass, on which a conflict alone rests: each statement of the part gets an assignment that meets all others,
//! or leaves the part.

ghost use Rattle.std.specs.Prelude.{◌≡◌, ◌+◌, ◌<◌, ◌++◌, ◌∷◌, [], false, length, slice_index_or};
ghost use Rattle.std.specs.Prelude.{IfOk, IfSome, IsTrue};
ghost use Rattle.model_meaning.specs.Limits.{InLimits};
ghost use Rattle.decode_minimize.specs.Answers.{IsBudget};
ghost use Rattle.model_parts.specs.Only.{numbers_of};
ghost use Rattle.core_extract.specs.Parts.{whole_of, MeetsOthers};
ghost use Rattle.core_extract.specs.Extracted.{IsReduced, IsProgress, IsTurn, IsSettled};

use crate::reduction::{Attempt, Reduction, SpentPart};
use crate::reply::Asker;
use crate::watching::ConflictWatcher;
use crate::witnesses::Witnesses;
use fixpoint_queue::Oracle;
use model_meaning::{Assignment, Model, in_domains};
use model_parts::first_broken_but;
use rule_base::Steps;
use std::alloc::AllocError;
use std::sync::ledger::Ledger;

/// How far the last pass has come.
#[derive(Drop)]
pub struct Progress {
    /// The part.
    pub(crate) reduction: Reduction,
    /// For each statement of it that was looked at, an assignment that meets all others.
    pub(crate) given: Vec<Assignment>,
}

/// What came of a statement.
#[derive(Drop)]
pub enum Turn {
    /// It has its assignment, or has left the part.
    Next(Progress),
    /// Whether the part without it has a solution is open.
    Spent(Reduction, SpentPart),
}

/// Whether an assignment in the domains meets all statements but that of a number.
fn meets_others(part: &Model, number: u64, a: &Assignment) -> bool
    requires { InLimits part.now }
    ensures { IsTrue result → MeetsOthers part.now number a.now }
{
    if in_domains(part, a) {
        first_broken_but(part, number, a).is_none()
    } else {
        false
    }
}

/// An assignment, where it meets all statements but that of a number.
fn tested(part: &Model, number: u64, kept: Option<Assignment>) -> Option<Assignment>
    requires { InLimits part.now }
    ensures { IfSome result (MeetsOthers part.now number) }
{
    match kept {
        Some(a) if meets_others(part, number, &a) => Some(a),
        _ => None,
    }
}

/// Assignments, and one more.
fn with_one(given: Vec<Assignment>, a: Assignment) -> Result<Vec<Assignment>, AllocError>
    ensures { IfOk result (λ more. more.items ≡ given.items ++ a ∷ []) }
{
    let mut given = given;
    given.push(a)?;
    Ok(given)
}

/// Asks whether the part has a solution without the statement at a place.
fn ask_without<F: Oracle<L>, L: Ledger, W: ConflictWatcher>(
    progress: Progress,
    asker: &Asker<'_, F, W>,
    place: usize,
    steps: &mut Steps<L>,
) -> Result<Turn, AllocError>
    requires progress { IsProgress F.told asker.now.options place progress }
    requires budget { IsBudget asker.now.options.budget }
    requires place { place < length progress.reduction.out.items }
    requires kept { slice_index_or progress.reduction.out.items place false ≡ false }
    requires named { place < length (numbers_of (whole_of progress.reduction.model).stmts) }
    ensures { IfOk result (IsTurn F.told asker.now.options (place + 1) progress) }
{
    let Progress { reduction, given } = progress;
    let out = reduction.without(asker.alloc, place)?;
    let attempt = reduction.attempt(asker, out, steps)?;
    match attempt {
        Attempt::Smaller(reduction) => Ok(Turn::Next(Progress { reduction, given })),
        Attempt::Solved(reduction, a) => {
            let given = with_one(given, a)?;
            Ok(Turn::Next(Progress { reduction, given }))
        }
        Attempt::Spent(reduction, spent) => Ok(Turn::Spent(reduction, spent)),
    }
}

/// Keeps the assignment of the statement at a place, where one is known, or asks for one.
fn settle_kept<F: Oracle<L>, L: Ledger, W: ConflictWatcher>(
    progress: Progress,
    asker: &Asker<'_, F, W>,
    place: usize,
    numbers: &[u64],
    witnesses: &mut Witnesses,
    steps: &mut Steps<L>,
) -> Result<Turn, AllocError>
    requires progress { IsProgress F.told asker.now.options place progress }
    requires budget { IsBudget asker.now.options.budget }
    requires place { place < length progress.reduction.out.items }
    requires kept { slice_index_or progress.reduction.out.items place false ≡ false }
    requires numbers { numbers.now ≡ numbers_of (whole_of progress.reduction.model).stmts }
    requires named { place < length numbers.now }
    ensures { IfOk result (IsTurn F.told asker.now.options (place + 1) progress) }
{
    let kept = witnesses.take(place);
    let number = numbers[place];
    match tested(progress.reduction.part(), number, kept) {
        Some(a) => {
            let Progress { reduction, given } = progress;
            let given = with_one(given, a)?;
            Ok(Turn::Next(Progress { reduction, given }))
        }
        None => ask_without(progress, asker, place, steps),
    }
}

/// Looks at the statement at a place.
fn settle_at<F: Oracle<L>, L: Ledger, W: ConflictWatcher>(
    progress: Progress,
    asker: &Asker<'_, F, W>,
    place: usize,
    numbers: &[u64],
    witnesses: &mut Witnesses,
    steps: &mut Steps<L>,
) -> Result<Turn, AllocError>
    requires progress { IsProgress F.told asker.now.options place progress }
    requires budget { IsBudget asker.now.options.budget }
    requires count { length progress.reduction.out.items ≡ length numbers.now }
    requires numbers { numbers.now ≡ numbers_of (whole_of progress.reduction.model).stmts }
    requires named { place < length numbers.now }
    ensures { IfOk result (IsTurn F.told asker.now.options (place + 1) progress) }
{
    if progress.reduction.is_out(place) {
        Ok(Turn::Next(progress))
    } else {
        settle_kept(progress, asker, place, numbers, witnesses, steps)
    }
}

/// Gives each statement of a part its assignment, or leaves it out.
pub(crate) fn settle<F: Oracle<L>, L: Ledger, W: ConflictWatcher>(
    reduction: Reduction,
    asker: &Asker<'_, F, W>,
    numbers: &[u64],
    witnesses: &mut Witnesses,
    steps: &mut Steps<L>,
) -> Result<Turn, AllocError>
    requires reduced { IsReduced F.told asker.now.options reduction }
    requires budget { IsBudget asker.now.options.budget }
    requires count { length reduction.out.items ≡ length numbers.now }
    requires numbers { numbers.now ≡ numbers_of (whole_of reduction.model).stmts }
    ensures { IfOk result (IsSettled F.told asker.now.options reduction) }
{
    let given = Vec::new(asker.alloc);
    let mut progress = Progress { reduction, given };
    for place in 0..numbers.len() {
        let turn = settle_at(progress, asker, place, numbers, witnesses, steps)?;
        match turn {
            Turn::Next(next) => progress = next,
            Turn::Spent(reduction, spent) => return Ok(Turn::Spent(reduction, spent)),
        }
    }
    Ok(Turn::Next(progress))
}
