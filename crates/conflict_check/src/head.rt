//! Taking the lines up to the one behind the named statements.

ghost use Rattle.std.specs.Prelude.{◌≡◌, ◌≢◌, ◌↔◌, ◌<◌, ◌^◌, length, codes, IfOk, IsTrue};
ghost use Rattle.model_meaning.specs.declared.model.Model.{Model as AnyModel};
ghost use Rattle.model_meaning.specs.WellTyped.{WellTyped};
ghost use Rattle.conflict_text.specs.ConflictLines.{start_standing, statement_line, MayName, HasNamed};
ghost use Rattle.conflict_check.specs.Heads.{stage_behind, head_standing, IsWalked, IsHeadTaken, IsFront};

use crate::marking::mark;
use crate::refused::RefusedConflict;
use crate::words::{read_numbered, read_verdict};
use bee_text::{Lines, is};
use conflict_text::CoreVerdict;
use model_meaning::Model;
use std::alloc::{AllocError, Global};
use std::cell::Cell;

/// Which line is wanted next.
#[derive(Clone, Copy, PartialEq, Eq)]
pub(crate) enum Stage {
    /// The version of the form.
    Version,
    /// The verdict.
    Verdict,
    /// A statement of the part, or the ledger.
    Statements,
    /// None of these.
    Done,
}

/// What is kept of the first lines: which is wanted next, the verdict, the numbers that were named, the last of them,
/// and which statements are left out, up to the one that was named last.
#[derive(Drop)]
pub(crate) struct Head {
    pub(crate) stage: Stage,
    pub(crate) verdict: CoreVerdict,
    pub(crate) conflict: Vec<u64>,
    pub(crate) last: u64,
    pub(crate) out: Vec<bool>,
}

/// What the first lines come to.
#[derive(Clone, Copy)]
pub(crate) enum Front {
    /// The line of this number is the first that fails.
    Fails(u64),
    /// So many lines lead to the end of the first ones.
    Leads(usize),
}

/// Whether a further statement may be named behind so many.
fn may_name(verdict: CoreVerdict, named: usize) -> bool
    ensures { IsTrue result ↔ MayName verdict named }
{
    match verdict {
        CoreVerdict::Satisfiable => false,
        CoreVerdict::Core(count) => (named as u64) < count,
        CoreVerdict::Unknown(_) => true,
    }
}

/// Whether so many statements are all that are to be named.
fn has_named(verdict: CoreVerdict, named: usize) -> bool
    ensures { IsTrue result ↔ HasNamed verdict named }
{
    match verdict {
        CoreVerdict::Satisfiable => false,
        CoreVerdict::Core(count) => named as u64 == count,
        CoreVerdict::Unknown(_) => true,
    }
}

/// What is wanted behind a verdict.
fn stage_behind(verdict: CoreVerdict) -> Stage
    ensures { result ≡ stage_behind verdict }
{
    match verdict {
        CoreVerdict::Satisfiable => Stage::Done,
        CoreVerdict::Core(_) => Stage::Statements,
        CoreVerdict::Unknown(_) => Stage::Statements,
    }
}

impl Head {
    /// Before the first line.
    pub(crate) fn new(alloc: Global) -> Head
        ensures wanted { result.stage ≢ Stage.Done }
        ensures start { (model : AnyModel) → head_standing model result ≡ start_standing model }
        ensures walked { (model : AnyModel) → WellTyped model → IsWalked model result }
    {
        let conflict = Vec::new(alloc);
        let out = Vec::new(alloc);
        Head {
            stage: Stage::Version,
            verdict: CoreVerdict::Satisfiable,
            conflict,
            last: 0,
            out,
        }
    }

    /// Takes the line of the version.
    fn version_line(&mut self, model: &Model, line: &[u8]) -> bool
        requires stage { self.old.stage ≡ Stage.Version }
        requires walked { IsWalked model.now self.old }
        ensures { IsHeadTaken model.now self.old line.now self.new result }
    {
        if !is(line, b"bee core 1") {
            return false;
        }
        self.stage = Stage::Verdict;
        true
    }

    /// Takes the line of the verdict.
    fn verdict_line(&mut self, model: &Model, line: &[u8]) -> bool
        requires stage { self.old.stage ≡ Stage.Verdict }
        requires walked { IsWalked model.now self.old }
        ensures { IsHeadTaken model.now self.old line.now self.new result }
    {
        match read_verdict(line) {
            None => false,
            Some(verdict) => {
                self.verdict = verdict;
                self.stage = stage_behind(verdict);
                true
            }
        }
    }

    /// Takes the line that ends the statements.
    fn end_statements(&mut self, model: &Model, line: &[u8]) -> bool
        requires stage { self.old.stage ≡ Stage.Statements }
        requires walked { IsWalked model.now self.old }
        requires line { line.now ≡ codes "ledger" }
        ensures { IsHeadTaken model.now self.old line.now self.new result }
    {
        if !has_named(self.verdict, self.conflict.len()) {
            return false;
        }
        self.stage = Stage::Done;
        true
    }

    /// Whether a number may be named behind those that were.
    fn may_take(&self, number: u64) -> bool
        ensures { IsTrue result ↔
            ((self.now.last < number) × MayName self.now.verdict (length self.now.conflict.items)) }
    {
        self.last < number && may_name(self.verdict, self.conflict.len())
    }

    /// Takes the line that names the statement of a number.
    fn name(&mut self, model: &Model, line: &[u8], number: u64) -> Result<bool, AllocError>
        requires stage { self.old.stage ≡ Stage.Statements }
        requires walked { IsWalked model.now self.old }
        requires line { line.now ≡ statement_line number }
        ensures { IfOk result (IsHeadTaken model.now self.old line.now self.new) }
    {
        if !self.may_take(number) {
            return Ok(false);
        }
        let marked = mark(model.stmts.as_slice(), &mut self.out, number)?;
        if !marked {
            return Ok(false);
        }
        self.conflict.push(number)?;
        self.last = number;
        Ok(true)
    }

    /// Takes a line that names a statement, or the one behind the last.
    fn statements_line(&mut self, model: &Model, line: &[u8]) -> Result<bool, AllocError>
        requires stage { self.old.stage ≡ Stage.Statements }
        requires walked { IsWalked model.now self.old }
        ensures { IfOk result (IsHeadTaken model.now self.old line.now self.new) }
    {
        if is(line, b"ledger") {
            return Ok(self.end_statements(model, line));
        }
        match read_numbered(line, b"statement ") {
            None => Ok(false),
            Some(number) => self.name(model, line, number),
        }
    }

    /// Whether none of the first lines is wanted any more.
    fn is_done(&self) -> bool
        ensures { IsTrue result ↔ (self.now.stage ≡ Stage.Done) }
    {
        self.stage == Stage::Done
    }

    /// Takes a line, where it is the next; the answer says whether it is.
    fn take_line(&mut self, model: &Model, line: &[u8]) -> Result<bool, AllocError>
        requires wanted { self.old.stage ≢ Stage.Done }
        requires walked { IsWalked model.now self.old }
        ensures { IfOk result (IsHeadTaken model.now self.old line.now self.new) }
    {
        match self.stage {
            Stage::Version => Ok(self.version_line(model, line)),
            Stage::Verdict => Ok(self.verdict_line(model, line)),
            Stage::Statements => self.statements_line(model, line),
            Stage::Done => Ok(false),
        }
    }
}

/// Takes the first lines of a text, up to the one behind the named statements, or to the first that isn't the next.
/// What stands against that is put into the cell.
pub(crate) fn read_head(
    model: &Model,
    head: &mut Head,
    lines: &mut Lines<'_>,
    noted: &Cell<Option<RefusedConflict>>,
) -> Result<Front, AllocError>
    requires none { lines.old.read ≡ 0 }
    requires short { length lines.old.rest < 2 ^ 63 }
    requires wanted { head.old.stage ≢ Stage.Done }
    requires walked { IsWalked model.now head.old }
    ensures { IfOk result (IsFront model.now head.old lines.old.rest head.new lines.new.rest) }
{
    let mut read: usize = 0;
    while let Some(line) = lines.next_line() {
        if !head.take_line(model, line.bytes)? {
            noted.set(Some(head.against(line.bytes)));
            return Ok(Front::Fails(line.number as u64));
        }
        read = line.number;
        if head.is_done() {
            return Ok(Front::Leads(read));
        }
    }
    noted.set(Some(RefusedConflict::Missing));
    Ok(Front::Fails(read as u64 + 1))
}
