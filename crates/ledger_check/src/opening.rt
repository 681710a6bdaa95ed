//! Taking the lines up to the last value.

ghost use Rattle.std.specs.Prelude.{◌≡◌, ◌<◌, ◌&&◌, IfOk, Some, None};
ghost use Rattle.ledger_check.specs.Items.{Version, Answer, Best, Value, IsNameLeft};
ghost use Rattle.ledger_check.specs.Tests.{verdict_fits, behind_verdict, with_best};
ghost use Rattle.ledger_check.specs.Tests.{told_number, with_value, taken_in};
ghost use Rattle.ledger_check.specs.Taken.{standing_of, Took, Takes, IsLater};

use crate::fault::Why;
use crate::lines::{read_best, read_value, read_verdict, read_version};
use crate::part::Part;
use crate::reading::Reading;
use crate::told::Told;
use answer_document::{Bounds, Verdict, has_objective, has_second};
use bee_text::is;
use certificate_lines::{is_count, is_value};
use model_meaning::{Goal, Kind, Model};
use std::alloc::AllocError;

/// Whether a verdict goes with a goal.
fn verdict_fits(goal: Goal, verdict: Verdict) -> bool
    ensures { result ≡ verdict_fits goal verdict }
{
    match verdict {
        Verdict::Satisfiable => !has_objective(goal),
        Verdict::Unsatisfiable => true,
        Verdict::Optimum(_) => has_objective(goal),
        Verdict::Unknown(n, _) => is_count(n),
    }
}

/// What comes behind a verdict.
fn behind_verdict(verdict: Verdict) -> Part
    ensures { result ≡ behind_verdict verdict }
{
    match verdict {
        Verdict::Satisfiable => Part::Values,
        Verdict::Unsatisfiable => Part::Unanswered,
        Verdict::Optimum(_) => Part::Values,
        Verdict::Unknown(..) => Part::Best,
    }
}

/// A verdict with a best solution's values.
fn with_best(verdict: Verdict, bounds: Bounds) -> Verdict
    ensures { result ≡ with_best verdict bounds }
{
    match verdict {
        Verdict::Unknown(n, _) => Verdict::Unknown(n, Some(bounds)),
        other => other,
    }
}

/// The number that is told of a name of a kind, where it is one of its domain.
fn told_number(kind: &Kind, told: Told) -> Option<i64>
    ensures { result ≡ told_number kind.now told }
{
    match (kind, told) {
        (Kind::Bool, Told::Truth(truth)) => Some(if truth { 1 } else { 0 }),
        (Kind::Bool, Told::Number(_)) => None,
        (_, Told::Truth(_)) => None,
        (_, Told::Number(number)) => {
            if is_value(kind, number) {
                Some(number)
            } else {
                None
            }
        }
    }
}

impl Reading {
    /// Takes a version.
    fn take_version(&mut self, model: &Model, two: bool) -> Option<Why>
        ensures took { Took (taken_in model.now (standing_of self.old) Part.Version (Version two))
            (standing_of self.new) result }
        ensures later { IsLater self.old self.new }
    {
        if two != has_second(model.goal) {
            return Some(Why::Goal);
        }
        self.part = Part::Verdict;
        None
    }

    /// Takes a verdict.
    fn take_verdict(&mut self, model: &Model, verdict: Verdict) -> Option<Why>
        ensures took { Took (taken_in model.now (standing_of self.old) Part.Verdict (Answer verdict))
            (standing_of self.new) result }
        ensures later { IsLater self.old self.new }
    {
        if !verdict_fits(model.goal, verdict) {
            return Some(Why::Goal);
        }
        self.part = behind_verdict(verdict);
        self.verdict = verdict;
        None
    }

    /// Takes a best solution's values.
    fn take_best(&mut self, model: &Model, bounds: Bounds) -> Option<Why>
        ensures took { Took (taken_in model.now (standing_of self.old) Part.Best (Best bounds)) (standing_of self.new)
            result }
        ensures later { IsLater self.old self.new }
    {
        if !has_objective(model.goal) {
            return Some(Why::Goal);
        }
        self.part = Part::Values;
        self.verdict = with_best(self.verdict, bounds);
        None
    }

    /// Takes the value of a name.
    fn take_value(&mut self, kind: &Kind, told: Told) -> Result<Option<Why>, AllocError>
        ensures took { IfOk result
            (λ o. Took (with_value (standing_of self.old) (told_number kind.now told)) (standing_of self.new) o) }
        ensures later { IsLater self.old self.new }
    {
        match told_number(kind, told) {
            None => Ok(Some(Why::Value)),
            Some(number) => {
                self.values.push(number)?;
                Ok(None)
            }
        }
    }

    /// Takes the first line.
    pub(crate) fn version_line(&mut self, model: &Model, line: &[u8]) -> Option<Why>
        requires { self.old.part ≡ Part.Version }
        ensures takes { Takes model.now (standing_of self.old) line.now (standing_of self.new) result }
        ensures later { IsLater self.old self.new }
    {
        match read_version(line) {
            None => Some(Why::Shape),
            Some(two) => self.take_version(model, two),
        }
    }

    /// Takes the line of the verdict.
    pub(crate) fn verdict_line(&mut self, model: &Model, line: &[u8]) -> Option<Why>
        requires { self.old.part ≡ Part.Verdict }
        ensures takes { Takes model.now (standing_of self.old) line.now (standing_of self.new) result }
        ensures later { IsLater self.old self.new }
    {
        match read_verdict(line, has_second(model.goal)) {
            None => Some(Why::Shape),
            Some(verdict) => self.take_verdict(model, verdict),
        }
    }

    /// Takes the line behind the verdict of a search that was given up.
    pub(crate) fn best_line(&mut self, model: &Model, line: &[u8]) -> Option<Why>
        requires { self.old.part ≡ Part.Best }
        ensures takes { Takes model.now (standing_of self.old) line.now (standing_of self.new) result }
        ensures later { IsLater self.old self.new }
    {
        if is(line, b"ledger") {
            self.part = Part::Ledger;
            return None;
        }
        match read_best(line, has_second(model.goal)) {
            None => Some(Why::Shape),
            Some(bounds) => self.take_best(model, bounds),
        }
    }

    /// Takes the line behind the verdict that there is no solution.
    pub(crate) fn unanswered_line(&mut self, model: &Model, line: &[u8]) -> Option<Why>
        requires { self.old.part ≡ Part.Unanswered }
        ensures takes { Takes model.now (standing_of self.old) line.now (standing_of self.new) result }
        ensures later { IsLater self.old self.new }
    {
        if is(line, b"ledger") {
            self.part = Part::Ledger;
            return None;
        }
        Some(Why::Shape)
    }

    /// Takes the line of the next name.
    pub(crate) fn name_line(
        &mut self,
        model: &Model,
        line: &[u8],
    ) -> Result<Option<Why>, AllocError>
        requires part { self.old.part ≡ Part.Values }
        requires left { IsNameLeft model.now self.old.values.items }
        ensures takes { IfOk result (λ o. Takes model.now (standing_of self.old) line.now (standing_of self.new) o) }
        ensures later { IsLater self.old self.new }
    {
        let decl = &model.decls.as_slice()[self.values.len()];
        match read_value(line, decl.name.as_bytes()) {
            None => Ok(Some(Why::Shape)),
            Some(told) => {
                let taken = self.take_value(&decl.kind, told)?;
                return Ok(taken);
            }
        }
    }
}
