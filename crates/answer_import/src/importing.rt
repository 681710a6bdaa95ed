//! From another solver's text to the document of an answer.

ghost use Rattle.std.specs.Prelude.{◌≡◌, ℕ, ℤ, ◌≤◌, List, Option, length, map, IfOk, IfSome, IsTrue};
ghost use Rattle.bee_text.specs.Lines.{AreLines};
ghost use Rattle.order_ints.specs.OrderedClauses.{ClausesAscend};
ghost use Rattle.model_meaning.specs.declared.model.Decl.{Decl};
ghost use Rattle.model_meaning.specs.WellTyped.{WellTyped};
ghost use Rattle.model_meaning.specs.Limits.{InLimits};
ghost use Rattle.bee_compile.specs.Fits.{CompiledFits};
ghost use Rattle.answer_document.specs.DocumentText.{document_text};
ghost use Rattle.ledger_check.specs.Checked.{IsAnswer};
ghost use Rattle.answer_document.specs.declared.verdict.Verdict.{Verdict};
ghost use Rattle.answer_import.specs.declared.importing.Imported.TheVariants.{Refused};
ghost use Rattle.answer_import.specs.Imports.{AddsOnly, IsImport, TextShows, TextFails};
ghost use Rattle.answer_import.specs.FindingLaws.{IsAnswered};
ghost use Rattle.answer_import.specs.Importing.{IsWrittenFor, sought_of};

use crate::judging::{Found, Task, judge};
use crate::laws::finding_laws;
use answer_document::{Bounds, Document, Verdict, write_document};
use bee_compile::Compiled;
use ledger_check::check;
use model_meaning::{Assignment, Decl, Model};
use proof_check::ProofLine;
use std::alloc::{AllocError, Global};

/// What another solver's text is imported as.
#[derive(Drop)]
pub enum Imported {
    /// A valid answer with this verdict.
    Answer(Verdict, Vec<u8>),
    /// This line of it is the first that fails, counted from 1.
    Refused(u64),
}

/// Whether an assignment, where there is one, has a number for each declared name.
fn has_numbers(decls: &[Decl], assignment: &Option<Assignment>) -> bool
    ensures { IsTrue result → IfSome assignment.now (λ a. length decls.now ≡ length a.values) }
{
    match assignment {
        None => true,
        Some(given) => decls.len() == given.values.as_slice().len(),
    }
}

/// Whether two values of one objective each are the same.
fn is_same_bounds(a: Bounds, b: Bounds) -> bool
    ensures { IsTrue result → a ≡ b }
{
    if a.first != b.first {
        return false;
    }
    match (a.second, b.second) {
        (None, None) => true,
        _ => false,
    }
}

/// Whether two verdicts are the same, of those that a text can show.
fn is_same(a: Verdict, b: Verdict) -> bool
    ensures { IsTrue result → a ≡ b }
{
    match (a, b) {
        (Verdict::Satisfiable, Verdict::Satisfiable) => true,
        (Verdict::Unsatisfiable, Verdict::Unsatisfiable) => true,
        (Verdict::Optimum(bounds), Verdict::Optimum(others)) => is_same_bounds(bounds, others),
        _ => false,
    }
}

/// Whether each line adds a clause.
fn adds_only(lines: &[ProofLine]) -> bool
    ensures { IsTrue result → AddsOnly lines.now }
{
    let mut rest = lines;
    while let [line, others @ ..] = rest {
        if let ProofLine::Delete { .. } = line {
            return false;
        }
        rest = others;
    }
    true
}

/// Whether the derivation of a document only adds clauses.
fn derives_only(document: &Document) -> bool
    ensures { IsTrue result → AddsOnly document.now.proof }
{
    adds_only(document.proof.as_slice())
}

/// The text of a document that the checker of answers takes. Want of memory is told, too, where the checker doesn't
/// take it, it hasn't a number for each name, or its derivation deletes a clause.
fn written(alloc: Global, model: &Model, document: &Document) -> Result<Vec<u8>, AllocError>
    requires typed { WellTyped model.now }
    requires limits { InLimits model.now }
    requires names { AreLines (map (λ (d : Decl). d.name) model.now.decls) }
    ensures { IfOk result (λ text. IsWrittenFor model.now document.now text.items) }
{
    let decls = model.decls.as_slice();
    if !has_numbers(decls, &document.assignment) {
        return Err(AllocError);
    }
    if !derives_only(document) {
        return Err(AllocError);
    }
    let text = write_document(alloc, decls, model.goal, document)?;
    let Ok(verdict) = check(alloc, model, text.as_slice()) else {
        return Err(AllocError);
    };
    if is_same(verdict, document.verdict) {
        Ok(text)
    } else {
        Err(AllocError)
    }
}

/// The answer to a model that another solver's text shows, or the first line that fails.
fn import_text(
    alloc: Global,
    model: &Model,
    compiled: Compiled,
    text: &[u8],
) -> Result<Imported, AllocError>
    requires typed { WellTyped model.now }
    requires limits { InLimits model.now }
    requires names { AreLines (map (λ (d : Decl). d.name) model.now.decls) }
    requires fits { CompiledFits compiled }
    requires ascend { ClausesAscend compiled.cnf.clauses }
    ensures { IfOk result (IsImport model.now (sought_of model.now compiled) text.now) }
{
    let goal = model.goal;
    let Compiled {
        cnf,
        map,
        ledger,
        ..
    } = compiled;
    match judge(alloc, Task { cnf, map, goal }, text)? {
        Found::Refused(line) => Ok(Imported::Refused(line)),
        Found::Shown(verdict, assignment, proof) => {
            let document = Document {
                verdict,
                assignment,
                ledger,
                proof,
                second: None,
            };
            let text = written(alloc, model, &document)?;
            Ok(Imported::Answer(verdict, text))
        }
    }
}

/// The answer to a model that another solver's text shows, where the model is compiled: values that satisfy its
/// clauses, a refutation of them, or values and a refutation of the clauses and that the objective is better. Else the
/// first line that fails. It takes the time of reading the text, of checking the refutation, and of `check` for the
/// document.
pub fn import_answer(
    alloc: Global,
    model: &Model,
    compiled: Compiled,
    text: &[u8],
) -> Result<Imported, AllocError>
    requires typed { WellTyped model.now }
    requires limits { InLimits model.now }
    requires names { AreLines (map (λ (d : Decl). d.name) model.now.decls) }
    requires fits { CompiledFits compiled }
    requires ascend { ClausesAscend compiled.cnf.clauses }
    ensures import { IfOk result (IsImport model.now (sought_of model.now compiled) text.now) }
    ensures complete { (v : Verdict) (given : Option (List ℤ))
        → TextShows (sought_of model.now compiled) text.now v given → IfOk result (IsAnswered v) }
    ensures exact { (line : ℕ) → TextFails (sought_of model.now compiled) text.now line
        → IfOk result (λ i. i ≡ Refused line) }
{
    finding_laws();
    import_text(alloc, model, compiled, text)
}
