//! The tests behind the last value: domains, statements, and the stated values of the objectives.

ghost use Rattle.std.specs.Prelude.{◌≡◌, ◌<◌, ◌∷◌, IfOk, Some, true, false};
ghost use Rattle.std.specs.Prelude.{if◌then◌else◌};
ghost use Rattle.model_meaning.specs.Domains.{in_domains};
ghost use Rattle.model_meaning.specs.Limits.{InLimits};
ghost use Rattle.model_meaning.specs.Solutions.{objective, first_broken, second_value};
ghost use Rattle.model_meaning.specs.Terms.{value_at};
ghost use Rattle.answer_document.specs.Valid.{stated};
ghost use Rattle.answer_document.specs.Verdicts.{numbers_in, is_certified};
ghost use Rattle.ledger_check.specs.Items.{IsNameLeft};
ghost use Rattle.ledger_check.specs.Tests.{same_numbers, objective_fault, statement_fault, values_fault, unless};
ghost use Rattle.ledger_check.specs.Taken.{standing_of, Took, Takes, IsLater};

use crate::bounds::stated;
use crate::fault::Why;
use crate::part::Part;
use crate::reading::Reading;
use answer_document::{Bounds, Verdict};
use bee_list::Sequence;
use bee_text::is;
use model_meaning::{Assignment, Goal, Model, first_broken, in_domains};
use std::alloc::AllocError;

/// The value at a place, and 0 where there is none.
fn value_at(values: &[i64], place: usize) -> i64
    ensures { result ≡ value_at values.now place }
{
    match values.get(place) {
        Some(value) => *value,
        None => 0,
    }
}

/// Whether the objectives at one place or two have the stated values.
fn has_values(values: &[i64], place: usize, second: Option<usize>, bounds: Bounds) -> bool
    ensures { result ≡ same_numbers (value_at values.now place ∷ second_value second values.now)
        (numbers_in bounds) }
{
    match (second, bounds.second) {
        (None, None) => value_at(values, place) == bounds.first,
        (None, Some(_)) => false,
        (Some(_), None) => false,
        (Some(other), Some(number)) => {
            value_at(values, place) == bounds.first && value_at(values, other) == number
        }
    }
}

/// Whether the objectives of a goal have the stated values.
fn has_objectives(goal: Goal, values: &[i64], bounds: Bounds) -> bool
    ensures { result ≡ same_numbers (objective goal values.now) (numbers_in bounds) }
{
    match goal {
        Goal::Satisfy => false,
        Goal::Minimize(place, second) => has_values(values, place, second, bounds),
        Goal::Maximize(place, second) => has_values(values, place, second, bounds),
    }
}

/// What stands against stated values of the objectives.
fn objective_fault(goal: Goal, values: &[i64], bounds: Option<Bounds>) -> Option<Why>
    ensures { result ≡ objective_fault goal values.now bounds }
{
    match bounds {
        None => None,
        Some(b) => {
            if has_objectives(goal, values, b) {
                None
            } else {
                Some(Why::Objective)
            }
        }
    }
}

/// What stands against an assignment.
fn fault_of(model: &Model, given: &Assignment, bounds: Option<Bounds>) -> Option<Why>
    requires { InLimits model.now }
    ensures { result ≡ (if in_domains model.now.decls given.now.values
        then statement_fault (first_broken given.now.values model.now.stmts)
        (objective_fault model.now.goal given.now.values bounds)
        else Some Why.Value) }
{
    if !in_domains(model, given) {
        return Some(Why::Value);
    }
    match first_broken(model, given) {
        Some(number) => Some(Why::Statement(number)),
        None => objective_fault(model.goal, given.values.as_slice(), bounds),
    }
}

/// Whether a verdict has a certificate.
fn is_certified(verdict: Verdict) -> bool
    ensures { result ≡ is_certified verdict }
{
    match verdict {
        Verdict::Satisfiable => false,
        _ => true,
    }
}

impl Reading {
    /// What stands against the values that were read.
    fn values_fault(&self, model: &Model) -> Result<Option<Why>, AllocError>
        requires { InLimits model.now }
        ensures { IfOk result (λ o. o ≡ values_fault model.now (standing_of self.now)) }
    {
        let alloc = *self.values.allocator();
        let given = Assignment {
            values: Sequence::from_vec(self.values.as_slice().to_vec(alloc)?),
        };
        Ok(fault_of(model, &given, stated(self.verdict)))
    }

    /// Goes on behind the last value, where nothing stands against the values.
    fn pass_values(&mut self, model: &Model, next: Part) -> Result<Option<Why>, AllocError>
        requires { InLimits model.now }
        ensures took { IfOk result
            (λ o. Took
            (unless (values_fault model.now (standing_of self.old)) (record (standing_of self.old) { part = next }))
            (standing_of self.new) o) }
        ensures later { IsLater self.old self.new }
    {
        match self.values_fault(model)? {
            None => {
                self.part = next;
                Ok(None)
            }
            Some(why) => Ok(Some(why)),
        }
    }

    /// Takes the line behind the last value.
    fn behind_values(&mut self, model: &Model, line: &[u8]) -> Result<Option<Why>, AllocError>
        requires limits { InLimits model.now }
        requires part { self.old.part ≡ Part.Values }
        requires none { IsNameLeft model.now self.old.values.items → ⊥ }
        ensures takes { IfOk result (λ o. Takes model.now (standing_of self.old) line.now (standing_of self.new) o) }
        ensures later { IsLater self.old self.new }
    {
        if is_certified(self.verdict) {
            if is(line, b"ledger") {
                let passed = self.pass_values(model, Part::Ledger)?;
                return Ok(passed);
            }
            return Ok(Some(Why::Shape));
        }
        if is(line, b"end") {
            let ended = self.pass_values(model, Part::End)?;
            return Ok(ended);
        }
        Ok(Some(Why::Shape))
    }

    /// Takes the line of the next name, or the one behind the last value.
    pub(crate) fn values_line(
        &mut self,
        model: &Model,
        line: &[u8],
    ) -> Result<Option<Why>, AllocError>
        requires limits { InLimits model.now }
        requires part { self.old.part ≡ Part.Values }
        ensures takes { IfOk result (λ o. Takes model.now (standing_of self.old) line.now (standing_of self.new) o) }
        ensures later { IsLater self.old self.new }
    {
        if self.values.len() < model.decls.len() {
            self.name_line(model, line)
        } else {
            self.behind_values(model, line)
        }
    }
}
