//! Checking the text of a conflict.

ghost use Rattle.std.specs.Prelude.{◌≡◌, ◌↔◌, ◌+◌, ◌<◌, ◌≤◌, ◌^◌};
ghost use Rattle.std.specs.Prelude.{IfOk, IfErr, IsTrue, MatchResult, length};
ghost use Rattle.model_meaning.specs.WellTyped.{WellTyped};
ghost use Rattle.model_meaning.specs.Limits.{InLimits};
ghost use Rattle.model_weight.specs.Weight.{weight_of};
ghost use Rattle.model_lower.specs.Weighed.{most_weight};
ghost use Rattle.model_parts.specs.CoreWeight.{core_weight};
ghost use Rattle.answer_document.specs.Valid.{start_of};
ghost use Rattle.conflict_text.specs.declared.verdict.CoreVerdict.{CoreVerdict};
ghost use Rattle.conflict_text.specs.ConflictLines.{start_standing};
ghost use Rattle.conflict_text.specs.ConflictSays.{IsConflictText};
ghost use Rattle.conflict_check.specs.declared.fault.CoreFault.TheVariants as faults;
ghost use Rattle.conflict_check.specs.declared.checking.ConflictJudgement.TheVariants as judged;
ghost use Rattle.conflict_check.specs.Heads.{head_standing, IsWalked};
ghost use Rattle.conflict_check.specs.Parts.{IsOfPart, IsPartOf};
ghost use Rattle.conflict_check.specs.Readings.{standing_of};
ghost use Rattle.conflict_check.specs.Checked.{IsAcceptedConflict, IsJudged, IsJudgedBehind, IsRead, IsFaultOf};

use crate::fault::CoreFault;
use crate::head::{Front, Head, Stage, read_head};
use crate::marking::mark_rest;
use crate::reading::{Place, Reading, read_text};
use crate::refused::RefusedConflict;
use bee_list::Sequence;
use bee_text::Lines;
use conflict_text::CoreVerdict;
use ledger_replay::Replay;
use model_lower::{Lowered, lower};
use model_meaning::{Assignment, Model};
use model_parts::{DividedModel, weight_above};
use std::alloc::{AllocError, Global};
use std::cell::Cell;
use step_kernel::State;

/// What comes of the text of a conflict.
#[derive(Clone, Copy)]
pub enum ConflictJudgement {
    /// It is that of a conflict, with this verdict.
    Valid(CoreVerdict),
    /// It is none, and the line of this number, counted from 1, is the first that fails.
    Refused(u64),
}

/// The state with which the compilation of a model begins.
fn start_state(alloc: Global, model: &Model) -> Result<Replay, AllocError>
    requires typed { WellTyped model.now }
    requires limits { InLimits model.now }
    requires light { weight_of model.now ≤ most_weight }
    ensures { IfOk result (λ state. state ≡ start_of model.now) }
{
    match lower(alloc, model) {
        Err(_) => Err(AllocError),
        Ok(lowered) => {
            let Lowered { vars, cores, .. } = lowered;
            let state = State::start(alloc, vars, cores.into_vec())?;
            Ok(Replay::with(alloc, state))
        }
    }
}

/// The number of a line behind so many.
fn line_behind(read: usize, line: u64) -> u64
    requires { read + line < 2 ^ 64 }
    ensures { result ≡ read + line }
{
    read as u64 + line
}

/// What comes of the lines behind so many.
fn judge(
    alloc: Global,
    model: &Model,
    reading: &mut Reading,
    rest: &[u8],
    read: usize,
    noted: &Cell<Option<RefusedConflict>>,
) -> Result<ConflictJudgement, AllocError>
    requires limits { InLimits model.now }
    requires small { read + length rest.now + 1 < 2 ^ 64 }
    ensures { IfOk result (IsJudgedBehind (standing_of model.now reading.old) rest.now read) }
{
    match read_text(alloc, model, reading, rest, noted) {
        Ok(None) => Ok(ConflictJudgement::Valid(reading.verdict)),
        Ok(Some(line)) => Ok(ConflictJudgement::Refused(line_behind(read, line))),
        Err(_) => Err(AllocError),
    }
}

/// The model with the statements that were named, as a divided model.
fn part_of(alloc: Global, model: Model, out: Vec<bool>) -> Result<DividedModel, AllocError>
    requires { length out.items ≤ length model.stmts }
    ensures { IfOk result (IsPartOf model out.items) }
{
    let mut out = out;
    mark_rest(model.stmts.as_slice(), &mut out)?;
    DividedModel::new(alloc, model).choose(alloc, out)
}

/// What comes of the lines behind the named statements, where a part is to be shown.
fn judge_part(
    alloc: Global,
    model: Model,
    head: Head,
    rest: &[u8],
    read: usize,
    noted: &Cell<Option<RefusedConflict>>,
) -> Result<ConflictJudgement, AllocError>
    requires typed { WellTyped model }
    requires limits { InLimits model }
    requires light { core_weight model ≤ most_weight }
    requires walked { IsWalked model head }
    requires done { head.stage ≡ Stage.Done }
    requires part { IsOfPart head.verdict }
    requires small { read + length rest.now + 1 < 2 ^ 64 }
    ensures { IfOk result (IsJudgedBehind (head_standing model head) rest.now read) }
{
    let Head {
        verdict,
        conflict,
        last,
        out,
        ..
    } = head;
    let divided = part_of(alloc, model, out)?;
    let part = divided.part();
    let state = start_state(alloc, part)?;
    let mut reading = Reading {
        place: Place::Ledger,
        verdict,
        conflict,
        last,
        begun: 0,
        given: Assignment {
            values: Sequence::from_vec(Vec::new(alloc)),
        },
        state: Some(state),
        proof: None,
    };
    judge(alloc, part, &mut reading, rest, read, noted)
}

/// What comes of the lines behind the verdict, where a solution is to be shown.
fn judge_solution(
    alloc: Global,
    model: &Model,
    head: Head,
    rest: &[u8],
    read: usize,
    noted: &Cell<Option<RefusedConflict>>,
) -> Result<ConflictJudgement, AllocError>
    requires limits { InLimits model.now }
    requires done { head.stage ≡ Stage.Done }
    requires solution { IsOfPart head.verdict → ⊥ }
    requires small { read + length rest.now + 1 < 2 ^ 64 }
    ensures { IfOk result (IsJudgedBehind (head_standing model.now head) rest.now read) }
{
    let mut reading = Reading {
        place: Place::Values,
        verdict: head.verdict,
        conflict: head.conflict,
        last: head.last,
        begun: 0,
        given: Assignment {
            values: Sequence::from_vec(Vec::new(alloc)),
        },
        state: None,
        proof: None,
    };
    judge(alloc, model, &mut reading, rest, read, noted)
}

/// Whether a verdict is shown of a part.
fn is_of_part(verdict: CoreVerdict) -> bool
    ensures { IsTrue result ↔ IsOfPart verdict }
{
    match verdict {
        CoreVerdict::Satisfiable => false,
        CoreVerdict::Core(_) => true,
        CoreVerdict::Unknown(_) => true,
    }
}

/// What comes of the lines behind the first ones.
fn judge_behind(
    alloc: Global,
    model: Model,
    head: Head,
    rest: &[u8],
    read: usize,
    noted: &Cell<Option<RefusedConflict>>,
) -> Result<ConflictJudgement, AllocError>
    requires typed { WellTyped model }
    requires limits { InLimits model }
    requires light { core_weight model ≤ most_weight }
    requires walked { IsWalked model head }
    requires done { head.stage ≡ Stage.Done }
    requires small { read + length rest.now + 1 < 2 ^ 64 }
    ensures { IfOk result (IsJudgedBehind (head_standing model head) rest.now read) }
{
    if is_of_part(head.verdict) {
        judge_part(alloc, model, head, rest, read, noted)
    } else {
        judge_solution(alloc, &model, head, rest, read, noted)
    }
}

/// What comes of all lines.
fn judge_text(
    alloc: Global,
    model: Model,
    text: &[u8],
    noted: &Cell<Option<RefusedConflict>>,
) -> Result<ConflictJudgement, AllocError>
    requires typed { WellTyped model }
    requires limits { InLimits model }
    requires light { core_weight model ≤ most_weight }
    ensures { IfOk result (IsRead (start_standing model) text.now) }
{
    let mut head = Head::new(alloc);
    let mut lines = Lines::new(text);
    match read_head(&model, &mut head, &mut lines, noted) {
        Ok(Front::Fails(line)) => Ok(ConflictJudgement::Refused(line)),
        Ok(Front::Leads(read)) => judge_behind(alloc, model, head, lines.rest(), read, noted),
        Err(_) => Err(AllocError),
    }
}

/// Whether a text is that of a conflict of a model, whoever wrote it, where no part of the model weighs too much: its
/// verdict, which is then true, or the number of the first line that fails. One pass over the text and one over the
/// statements, of which none is copied; the state of the compilation and the clauses are kept. What stands against a
/// line that fails is put into the cell.
pub fn check_text(
    alloc: Global,
    model: Model,
    text: &[u8],
    noted: &Cell<Option<RefusedConflict>>,
) -> Result<ConflictJudgement, AllocError>
    requires typed { WellTyped model }
    requires limits { InLimits model }
    requires light { core_weight model ≤ most_weight }
    ensures judged { IfOk result (IsJudged model text.now) }

    // Every text of a conflict is accepted, but for want of memory.
    ensures complete { (v : CoreVerdict) → IsConflictText model text.now v
        → IfOk result (λ j. j ≡ judged.Valid v) }
{
    judge_text(alloc, model, text, noted)
}

/// Whether a text is that of a conflict of a model, as by `check_text`. The model is weighed first, and refused where a
/// part of it may weigh too much, whatever the text is. It is for callers that have the model alone: no mode calls it,
/// since each weighs a model before it asks for the second text.
pub fn check_core(alloc: Global, model: Model, text: &[u8]) -> Result<CoreVerdict, CoreFault>
    requires typed { WellTyped model }
    requires limits { InLimits model }
    ensures conflict { IfOk result (IsAcceptedConflict model text.now) }
    ensures light { IfOk result (λ v. core_weight model ≤ most_weight) }
    ensures fault { IfErr result (λ e. IsFaultOf e model text.now) }

    // Every text of a conflict of a model that is taken is accepted, but for want of memory.
    ensures complete { (v : CoreVerdict) → core_weight model ≤ most_weight → IsConflictText model text.now v
        → MatchResult result (λ u. u ≡ v) (λ e. e ≡ faults.Memory) }
{
    match weight_above(alloc, &model) {
        Ok(None) => {}
        Ok(Some(weight)) => return Err(CoreFault::TooHeavy(weight)),
        Err(_) => return Err(CoreFault::Memory),
    }
    match check_text(alloc, model, text, &Cell::new(None)) {
        Ok(ConflictJudgement::Valid(verdict)) => Ok(verdict),
        Ok(ConflictJudgement::Refused(line)) => Err(CoreFault::Refused(line)),
        Err(AllocError) => Err(CoreFault::Memory),
    }
}
