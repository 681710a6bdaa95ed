//! The text that is written for a board.

ghost use Rattle.std.specs.Prelude.{◌≡◌, ◌∷◌, ◌++◌, ◌≤◌, [], length, IfOk, IfSome, OnOk};
ghost use Rattle.bee_text.specs.Lines.{join_lines};
ghost use Rattle.model_meaning.specs.Terms.{value_at};
ghost use Rattle.queens_mode.specs.Summary.{equations_in, count_line, head_lines, values_of, columns_line};
ghost use Rattle.queens_mode.specs.Summary.{solution_lines, rest_text, summary_text};

use answer_document::{Document, Verdict, push_document, push_ledger, push_verdict};
use bee_text::{end_line, push_blank, push_bytes, push_number, push_signed};
use decode_minimize::{AnsweredModel, CnfSize};
use ledger_text::Line;
use model_meaning::{Assignment, Decl, Goal};
use std::alloc::{AllocError, Global};

/// How many lines of a ledger are equations.
fn equations(ledger: &[Line]) -> u64
    ensures { result ≡ equations_in ledger.now }
{
    let mut count: u64 = 0;
    for line in ledger {
        match line {
            Line::Equate { .. } => count += 1,
            Line::Split { .. } | Line::Encode { .. } => {}
        }
    }
    count
}

/// Writes the line of a number with its word.
fn push_count(out: &mut Vec<u8>, word: &[u8], n: u128) -> Result<(), AllocError>
    ensures { OnOk result (out.new.items ≡ out.old.items ++ count_line word.now n ++ 10 ∷ []) }
{
    push_bytes(out, word)?;
    push_blank(out)?;
    push_number(out, n)?;
    end_line(out)
}

/// Writes the lines up to the verdict.
fn push_head(
    out: &mut Vec<u8>,
    size: u64,
    cnf: CnfSize,
    document: &Document,
) -> Result<(), AllocError>
    ensures { OnOk result (out.new.items ≡ out.old.items
        ++ join_lines (head_lines size cnf document.now.ledger document.now.verdict)) }
{
    push_count(out, b"queens", u128::from(size))?;
    push_count(out, b"variables", u128::from(cnf.variables))?;
    push_count(out, b"clauses", cnf.clauses as u128)?;
    push_count(
        out,
        b"equations",
        u128::from(equations(document.ledger.as_slice())),
    )?;
    push_verdict(out, document.verdict)?;
    end_line(out)?;
    Ok(())
}

/// The value at a place, and 0 past the last one.
fn value_at(values: &[i64], place: usize) -> i64
    ensures { result ≡ value_at values.now place }
{
    match values.get(place) {
        Some(value) => *value,
        None => 0,
    }
}

/// Writes the columns, without a line feed.
fn push_columns(out: &mut Vec<u8>, values: &[i64], size: u64) -> Result<(), AllocError>
    requires { size ≤ 24 }
    ensures { OnOk result (out.new.items ≡ out.old.items ++ columns_line values.now size) }
{
    push_bytes(out, b"columns")?;
    for row in 0..size {
        push_blank(out)?;
        push_signed(out, i128::from(value_at(values, 3 * row as usize)))?;
    }
    Ok(())
}

/// The values of an assignment; one that is missing has none.
fn values_of(assignment: &Option<Assignment>) -> &[i64]
    ensures { result.now ≡ values_of assignment.now }
{
    match assignment {
        Some(given) => given.values.as_slice(),
        None => &[],
    }
}

/// Writes the lines of a solution, with the ledger.
fn push_solution(out: &mut Vec<u8>, size: u64, document: &Document) -> Result<(), AllocError>
    requires { size ≤ 24 }
    ensures { OnOk result (out.new.items ≡ out.old.items
        ++ join_lines (solution_lines size (values_of document.now.assignment) document.now.ledger)) }
{
    push_columns(out, values_of(&document.assignment), size)?;
    end_line(out)?;
    push_bytes(out, b"ledger\n")?;
    push_ledger(out, document.ledger.as_slice())?;
    push_bytes(out, b"end\n")?;
    Ok(())
}

/// Writes what stands behind the verdict.
fn push_rest(
    out: &mut Vec<u8>,
    size: u64,
    decls: &[Decl],
    document: &Document,
) -> Result<(), AllocError>
    requires most { size ≤ 24 }
    requires count { IfSome document.now.assignment (λ a. length decls.now ≡ length a.values) }
    ensures { OnOk result (out.new.items ≡ out.old.items
        ++ rest_text size decls.now document.now document.now.verdict) }
{
    match document.verdict {
        Verdict::Satisfiable => push_solution(out, size, document),
        Verdict::Unsatisfiable | Verdict::Optimum(_) | Verdict::Unknown(..) => {
            push_document(out, decls, Goal::Satisfy, document)
        }
    }
}

/// The whole text. It is held in memory once, and grows as it is written.
pub fn write_summary(
    alloc: Global,
    size: u64,
    answered: &AnsweredModel,
) -> Result<Vec<u8>, AllocError>
    requires most { size ≤ 24 }
    requires count { IfSome answered.now.document.assignment (λ a. length answered.now.decls ≡ length a.values) }
    ensures { IfOk result (λ text. text.items
        ≡ summary_text size answered.now.decls answered.now.size answered.now.document) }
{
    let mut out = Vec::new(alloc);
    push_head(&mut out, size, answered.size, &answered.document)?;
    push_rest(
        &mut out,
        size,
        answered.decls.as_slice(),
        &answered.document,
    )?;
    Ok(out)
}
