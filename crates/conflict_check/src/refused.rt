//! What stands against a line of a conflict that is refused. It is for eyes: nothing is promised of it.

ghost use Rattle.model_meaning.specs.Limits.{InLimits};

use crate::head::{Head, Stage};
use crate::reading::{Place, Reading};
use crate::words::{begins_word, read_numbered};
use conflict_text::CoreVerdict;
use model_meaning::{Model, first_broken, in_domains};
use model_parts::first_broken_but;

/// What stands against a line of a conflict.
#[derive(Clone, Copy)]
pub enum RefusedConflict {
    /// It isn't the next line of a conflict.
    Misfit,
    /// It names no further statement of the model, or one too many.
    Named,
    /// It tells no value of the next name.
    Value,
    /// The values before it break the statement of this number, which they have to meet.
    Statement(u64),
    /// It is no step that is due.
    Step,
    /// It is no line of the derivation.
    Derived,
    /// The lines before it don't show the verdict.
    Open,
    /// The text ends before its last line.
    Missing,
}

impl Head {
    /// What stands against a line that wasn't taken.
    pub(crate) fn against(&self, line: &[u8]) -> RefusedConflict {
        match self.stage {
            Stage::Statements if read_numbered(line, b"statement ").is_some() =>
                RefusedConflict::Named,
            _ => RefusedConflict::Misfit,
        }
    }
}

impl Reading {
    /// A statement that the values at hand break, and have to meet.
    fn broken(&self, model: &Model) -> Option<u64>
        requires { InLimits model.now }
    {
        if !in_domains(model, &self.given) {
            return None;
        }
        match self.verdict {
            CoreVerdict::Satisfiable => first_broken(model, &self.given),
            _ => first_broken_but(model, self.last, &self.given),
        }
    }

    /// What stands against a line behind values, or against one more value.
    fn against_values(&self, model: &Model) -> RefusedConflict
        requires { InLimits model.now }
    {
        if self.given.values.len() < model.decls.len() {
            return RefusedConflict::Value;
        }
        match self.broken(model) {
            Some(number) => RefusedConflict::Statement(number),
            None => RefusedConflict::Misfit,
        }
    }

    /// What stands against a line behind the ledger.
    fn against_proof(&self, model: &Model, line: &[u8]) -> RefusedConflict {
        if !begins_word(line) {
            RefusedConflict::Derived
        } else if self.is_concluded(model) {
            RefusedConflict::Misfit
        } else {
            RefusedConflict::Open
        }
    }

    /// What stands against a line that wasn't taken.
    pub(crate) fn against(&self, model: &Model, line: &[u8]) -> RefusedConflict
        requires { InLimits model.now }
    {
        match self.place {
            Place::Ledger => RefusedConflict::Step,
            Place::Proof => self.against_proof(model, line),
            Place::Values => self.against_values(model),
            Place::End => RefusedConflict::Misfit,
        }
    }
}
