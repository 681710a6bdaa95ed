//! Writing the compiled text.

ghost use Rattle.std.specs.Prelude.{◌≡◌, ◌<◌, ◌^◌, ◌++◌, ◌∷◌, [], length, map, IfOk, OnOk};
ghost use Rattle.bee_text.specs.Lines.{join_lines};
ghost use Rattle.bee_text.specs.Words.{words_behind};
ghost use Rattle.ledger_text.specs.Words.{literal_word};
ghost use Rattle.ledger_text.specs.Steps.{step_text};
ghost use Rattle.dimacs_out.specs.CompiledText.{step_word, entry_line, ledger_line, numbers_line, clause_line, text_of};
ghost use Rattle.dimacs_out.specs.Written.{words_ended};

use crate::text::CnfText;
use bee_list::Sequence;
use bee_text::{end_line, push_blank, push_bytes, push_number, push_signed};
use ledger_text::{Line, push_atom, push_literal, push_step};
use name_map::MapEntry;
use order_ints::{Atom, Cnf, Lit, MapValue};
use std::alloc::{AllocError, Global};

/// Writes a step of an integer.
fn push_step_word(out: &mut Vec<u8>, step: (Atom, u128)) -> Result<(), AllocError>
    ensures { OnOk result (out.new.items ≡ out.old.items ++ step_word step) }
{
    push_atom(out, step.0)?;
    push_bytes(out, b":")?;
    push_number(out, step.1)
}

/// Writes the steps of an integer, each behind a blank.
fn push_steps(out: &mut Vec<u8>, steps: &[(Atom, u128)]) -> Result<(), AllocError>
    ensures { OnOk result (out.new.items ≡ out.old.items ++ words_behind (map step_word steps.now)) }
{
    for step in steps {
        push_blank(out)?;
        push_step_word(out, *step)?;
    }
    Ok(())
}

/// Writes the line of a declared name, and its line feed.
fn push_entry(out: &mut Vec<u8>, entry: &MapEntry) -> Result<(), AllocError>
    ensures { OnOk result (out.new.items ≡ out.old.items ++ entry_line entry.now ++ 10 ∷ []) }
{
    match &entry.value {
        MapValue::Bool(atom) => {
            push_bytes(out, b"c bool ")?;
            push_bytes(out, entry.name.as_bytes())?;
            push_blank(out)?;
            push_atom(out, *atom)?;
        }
        MapValue::Int(integer) => {
            push_bytes(out, b"c int ")?;
            push_bytes(out, entry.name.as_bytes())?;
            push_blank(out)?;
            push_signed(out, integer.base)?;
            push_steps(out, integer.steps.as_slice())?;
        }
    }
    end_line(out)
}

/// Writes the lines of the declared names.
fn push_entries(out: &mut Vec<u8>, entries: &[MapEntry]) -> Result<(), AllocError>
    ensures { OnOk result (out.new.items ≡ out.old.items ++ join_lines (map entry_line entries.now)) }
{
    for entry in entries {
        push_entry(out, entry)?;
    }
    Ok(())
}

/// Writes the lines of the ledger.
fn push_ledger(out: &mut Vec<u8>, ledger: &[Line]) -> Result<(), AllocError>
    ensures { OnOk result (out.new.items ≡ out.old.items ++ join_lines (map ledger_line ledger.now)) }
{
    for step in ledger {
        push_ledger_line(out, step)?;
    }
    Ok(())
}

/// Writes the line of a ledger line, and its line feed.
fn push_ledger_line(out: &mut Vec<u8>, step: &Line) -> Result<(), AllocError>
    ensures { OnOk result (out.new.items ≡ out.old.items ++ ledger_line step.now ++ 10 ∷ []) }
{
    push_bytes(out, b"c led ")?;
    push_step(out, step)?;
    end_line(out)
}

/// Writes the literals of a clause, each before a blank.
fn push_literals(out: &mut Vec<u8>, clause: &[Lit]) -> Result<(), AllocError>
    ensures { OnOk result (out.new.items ≡ out.old.items ++ words_ended (map literal_word clause.now)) }
{
    for literal in clause {
        push_literal(out, *literal)?;
        push_blank(out)?;
    }
    Ok(())
}

/// Writes the line of a clause, and its line feed.
fn push_clause(out: &mut Vec<u8>, clause: &[Lit]) -> Result<(), AllocError>
    ensures { OnOk result (out.new.items ≡ out.old.items ++ clause_line clause.now ++ 10 ∷ []) }
{
    push_literals(out, clause)?;
    push_bytes(out, b"0")?;
    end_line(out)?;
    Ok(())
}

/// Writes the lines of the clauses.
fn push_clauses(out: &mut Vec<u8>, clauses: &[Sequence<Lit>]) -> Result<(), AllocError>
    ensures { OnOk result (out.new.items ≡ out.old.items ++ join_lines (map clause_line clauses.now)) }
{
    for clause in clauses {
        push_clause(out, clause.as_slice())?;
    }
    Ok(())
}

/// Writes the line that tells the numbers of variables and clauses, and its line feed.
fn push_numbers(out: &mut Vec<u8>, cnf: &Cnf) -> Result<(), AllocError>
    ensures line { OnOk result
        (out.new.items ≡ out.old.items ++ numbers_line cnf.now.vars (length cnf.now.clauses) ++ 10 ∷ []) }
    ensures fits { length cnf.now.clauses < 2 ^ 64 }
{
    let count = cnf.clauses.len();
    push_bytes(out, b"p cnf ")?;
    push_number(out, u128::from(cnf.vars))?;
    push_blank(out)?;
    push_number(out, count as u128)?;
    end_line(out)
}

/// The compiled text of declared names, what they stand for, a ledger, and a CNF. One pass over what is written; the
/// text is held in memory once.
pub fn write_compiled(alloc: Global, text: &CnfText) -> Result<Vec<u8>, AllocError>
    ensures text { IfOk result (λ written. written.items ≡ text_of text.now) }
    ensures fits { OnOk result (length text.now.cnf.clauses < 2 ^ 64) }
{
    let mut out = Vec::new(alloc);
    push_bytes(&mut out, b"c bee 1\n")?;
    push_entries(&mut out, text.entries.as_slice())?;
    push_ledger(&mut out, text.ledger.as_slice())?;
    push_numbers(&mut out, &text.cnf)?;
    push_clauses(&mut out, text.cnf.clauses.as_slice())?;
    Ok(out)
}
