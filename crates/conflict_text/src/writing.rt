//! Writing the document of a conflict.

ghost use Rattle.std.specs.Prelude.{◌≡◌, ◌++◌, ◌∷◌, [], codes, length, map, IfOk, OnOk};
ghost use Rattle.std.specs.Fmt.{decimal};
ghost use Rattle.bee_text.specs.Lines.{join_lines};
ghost use Rattle.name_map.specs.ValueLines.{declared_lines};
ghost use Rattle.ledger_text.specs.Steps.{step_text};
ghost use Rattle.proof_check.specs.Lines.{line_bytes};
ghost use Rattle.conflict_text.specs.ConflictLines.{version_line, verdict_line, statement_line, without_line};
ghost use Rattle.conflict_text.specs.ConflictDocuments.{certificate_lines, witness_lines, solution_lines, behind_lines};
ghost use Rattle.conflict_text.specs.ConflictDocuments.{conflict_text, AreWhole};

use crate::document::ConflictDocument;
use crate::verdict::CoreVerdict;
use answer_document::{push_ledger, push_proof, push_values};
use bee_text::{end_line, push_bytes, push_number};
use ledger_text::Line;
use model_meaning::{Assignment, Decl};
use proof_check::ProofLine;
use std::alloc::{AllocError, Global};

/// Writes a line of a word and a number.
fn push_numbered(out: &mut Vec<u8>, word: &[u8], number: u64) -> Result<(), AllocError>
    ensures { OnOk result (out.new.items ≡ out.old.items ++ join_lines ((word.now ++ decimal number) ∷ [])) }
{
    push_bytes(out, word)?;
    push_number(out, u128::from(number))?;
    end_line(out)?;
    Ok(())
}

/// Writes the line of a verdict.
fn push_verdict_line(out: &mut Vec<u8>, verdict: CoreVerdict) -> Result<(), AllocError>
    ensures { OnOk result (out.new.items ≡ out.old.items ++ join_lines (verdict_line verdict ∷ [])) }
{
    match verdict {
        CoreVerdict::Satisfiable => push_bytes(out, b"SATISFIABLE\n"),
        CoreVerdict::Core(count) => push_numbered(out, b"CORE ", count),
        CoreVerdict::Unknown(count) => push_numbered(out, b"UNKNOWN ", count),
    }
}

/// Writes the words of a verdict.
pub fn push_verdict(out: &mut Vec<u8>, verdict: CoreVerdict) -> Result<(), AllocError>
    ensures { OnOk result (out.new.items ≡ out.old.items ++ verdict_line verdict) }
{
    match verdict {
        CoreVerdict::Satisfiable => push_bytes(out, b"SATISFIABLE"),
        CoreVerdict::Core(count) => {
            push_bytes(out, b"CORE ")?;
            push_number(out, u128::from(count))
        }
        CoreVerdict::Unknown(count) => {
            push_bytes(out, b"UNKNOWN ")?;
            push_number(out, u128::from(count))
        }
    }
}

/// Writes the lines of the statements of a part.
#[tactic(auto, using(crate::proofs::Written::joined))]
fn push_statements(out: &mut Vec<u8>, statements: &[u64]) -> Result<(), AllocError>
    ensures { OnOk result (out.new.items ≡ out.old.items ++ join_lines (map statement_line statements.now)) }
{
    for number in statements {
        push_numbered(out, b"statement ", *number)?;
    }
    Ok(())
}

/// Writes the ledger behind its word.
#[tactic(auto, using(crate::proofs::Written::joined))]
fn push_steps(out: &mut Vec<u8>, ledger: &[Line]) -> Result<(), AllocError>
    ensures { OnOk result (out.new.items ≡ out.old.items ++ join_lines (codes "ledger" ∷ map step_text ledger.now)) }
{
    push_bytes(out, b"ledger\n")?;
    push_ledger(out, ledger)?;
    Ok(())
}

/// Writes the derivation behind its word.
#[tactic(auto, using(crate::proofs::Written::joined))]
fn push_derivation(out: &mut Vec<u8>, proof: &[ProofLine]) -> Result<(), AllocError>
    ensures { OnOk result (out.new.items ≡ out.old.items ++ join_lines (codes "proof" ∷ map line_bytes proof.now)) }
{
    push_bytes(out, b"proof\n")?;
    push_proof(out, proof)?;
    Ok(())
}

/// Writes the part, its ledger and the derivation.
#[tactic(auto, using(crate::proofs::Written::joined))]
fn push_certificate(
    out: &mut Vec<u8>,
    statements: &[u64],
    ledger: &[Line],
    proof: &[ProofLine],
) -> Result<(), AllocError>
    ensures { OnOk result (out.new.items ≡ out.old.items
        ++ join_lines (certificate_lines statements.now ledger.now proof.now)) }
{
    push_statements(out, statements)?;
    push_steps(out, ledger)?;
    push_derivation(out, proof)?;
    Ok(())
}

/// Writes an assignment behind the line of its statement.
#[tactic(auto, using(crate::proofs::Written::joined))]
fn push_witness(
    out: &mut Vec<u8>,
    decls: &[Decl],
    number: u64,
    values: &[i64],
) -> Result<(), AllocError>
    requires { length decls.now ≡ length values.now }
    ensures { OnOk result (out.new.items ≡ out.old.items
        ++ join_lines (without_line number ∷ declared_lines decls.now values.now)) }
{
    push_numbered(out, b"without ", number)?;
    push_values(out, decls, values)?;
    Ok(())
}

/// Writes each statement with its assignment.
#[tactic(auto, using(crate::proofs::Written::joined))]
fn push_witnesses(
    out: &mut Vec<u8>,
    decls: &[Decl],
    statements: &[u64],
    assignments: &[Assignment],
) -> Result<(), AllocError>
    requires { AreWhole decls.now assignments.now }
    ensures { OnOk result (out.new.items ≡ out.old.items
        ++ join_lines (witness_lines decls.now statements.now assignments.now)) }
{
    for i in 0..statements.len() {
        if i >= assignments.len() {
            return Ok(());
        }
        push_witness(out, decls, statements[i], assignments[i].values.as_slice())?;
    }
    Ok(())
}

/// Writes a solution.
fn push_solution(
    out: &mut Vec<u8>,
    decls: &[Decl],
    assignments: &[Assignment],
) -> Result<(), AllocError>
    requires { AreWhole decls.now assignments.now }
    ensures { OnOk result (out.new.items ≡ out.old.items ++ join_lines (solution_lines decls.now assignments.now)) }
{
    let [first, ..] = assignments else {
        return Ok(());
    };
    push_values(out, decls, first.values.as_slice())
}

/// Writes what stands behind the verdict.
#[tactic(auto, using(crate::proofs::Written::joined))]
fn push_behind(out: &mut Vec<u8>, decls: &[Decl], d: &ConflictDocument) -> Result<(), AllocError>
    requires { AreWhole decls.now d.now.assignments }
    ensures { OnOk result (out.new.items ≡ out.old.items ++ join_lines (behind_lines decls.now d.now d.now.verdict)) }
{
    let statements = d.statements.as_slice();
    let assignments = d.assignments.as_slice();
    match d.verdict {
        CoreVerdict::Satisfiable => push_solution(out, decls, assignments),
        CoreVerdict::Core(_) => {
            push_certificate(out, statements, d.ledger.as_slice(), d.proof.as_slice())?;
            push_witnesses(out, decls, statements, assignments)?;
            Ok(())
        }
        CoreVerdict::Unknown(_) => {
            push_certificate(out, statements, d.ledger.as_slice(), d.proof.as_slice())
        }
    }
}

/// Writes the first lines.
#[tactic(auto, using(crate::proofs::Written::joined))]
fn push_head(out: &mut Vec<u8>, verdict: CoreVerdict) -> Result<(), AllocError>
    ensures { OnOk result (out.new.items ≡ out.old.items
        ++ join_lines (version_line ∷ verdict_line verdict ∷ [])) }
{
    push_bytes(out, b"bee core 1\n")?;
    push_verdict_line(out, verdict)?;
    Ok(())
}

/// The text of a conflict of a model with these declarations. The statements of the model aren't looked at. One pass
/// over what is written, which is held in memory once.
#[tactic(auto, using(crate::proofs::Written::joined))]
pub fn write_core(
    alloc: Global,
    decls: &[Decl],
    d: &ConflictDocument,
) -> Result<Vec<u8>, AllocError>
    requires { AreWhole decls.now d.now.assignments }
    ensures { IfOk result (λ text. text.items ≡ conflict_text decls.now d.now) }
{
    let mut out = Vec::new(alloc);
    push_head(&mut out, d.verdict)?;
    push_behind(&mut out, decls, d)?;
    push_bytes(&mut out, b"end\n")?;
    Ok(out)
}
