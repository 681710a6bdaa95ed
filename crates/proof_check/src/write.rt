//! Writing the text of proof lines.

ghost use Rattle.std.specs.Prelude.{◌≡◌, ◌++◌, ◌∷◌, [], codes, map, OnOk, IfOk};
ghost use Rattle.std.specs.Fmt.{decimal, signed_decimal};
ghost use Rattle.bee_text.specs.Words.{words_behind};
ghost use Rattle.proof_check.specs.declared.line.ProofLine.TheVariants.{Add, Delete};
ghost use Rattle.proof_check.specs.Lines.{literal_word, line_text, IsReadable, IsTextOf};

use crate::line::ProofLine;
use crate::spelling::{push_hint, push_literal};
use bee_text::{push_blank, push_bytes, push_number};
use order_ints::Lit;
use std::alloc::{AllocError, Global};

/// Appends literals, each behind a blank.
fn push_literals(out: &mut Vec<u8>, lits: &[Lit]) -> Result<(), AllocError>
    ensures { OnOk result (out.new.items ≡ out.old.items ++ words_behind (map literal_word lits.now)) }
{
    for lit in lits {
        push_blank(out)?;
        push_literal(out, *lit)?;
    }
    Ok(())
}

/// Appends hints, each behind a blank.
fn push_hints(out: &mut Vec<u8>, hints: &[i64]) -> Result<(), AllocError>
    ensures { OnOk result (out.new.items ≡ out.old.items ++ words_behind (map signed_decimal hints.now)) }
{
    for hint in hints {
        push_blank(out)?;
        push_hint(out, hint)?;
    }
    Ok(())
}

/// Appends ids, each behind a blank.
fn push_ids(out: &mut Vec<u8>, ids: &[u64]) -> Result<(), AllocError>
    ensures { OnOk result (out.new.items ≡ out.old.items ++ words_behind (map decimal ids.now)) }
{
    for id in ids {
        push_blank(out)?;
        push_number(out, u128::from(*id))?;
    }
    Ok(())
}

/// Appends the text of an addition, with its line feed.
pub fn push_addition(
    out: &mut Vec<u8>,
    id: u64,
    lits: &[Lit],
    hints: &[i64],
) -> Result<(), AllocError>
    ensures { OnOk result (out.new.items ≡ out.old.items ++ line_text (Add id lits.now hints.now)) }
{
    push_number(out, u128::from(id))?;
    push_literals(out, lits)?;
    push_bytes(out, b" 0")?;
    push_hints(out, hints)?;
    push_bytes(out, b" 0\n")?;
    Ok(())
}

/// Appends the text of a deletion, with its line feed.
pub fn push_deletion(out: &mut Vec<u8>, at: u64, ids: &[u64]) -> Result<(), AllocError>
    ensures { OnOk result (out.new.items ≡ out.old.items ++ line_text (Delete at ids.now)) }
{
    push_number(out, u128::from(at))?;
    push_bytes(out, b" d")?;
    push_ids(out, ids)?;
    push_bytes(out, b" 0\n")?;
    Ok(())
}

/// Appends the text of a line, with its line feed. Where an id or a hint is 0, it is the text of no line that can be
/// read.
pub fn push_line(out: &mut Vec<u8>, line: &ProofLine) -> Result<(), AllocError>
    ensures { OnOk result (out.new.items ≡ out.old.items ++ line_text line.now) }
{
    match line {
        ProofLine::Add { id, lits, hints } => {
            push_addition(out, *id, lits.as_slice(), hints.as_slice())
        }
        ProofLine::Delete { at, ids } => push_deletion(out, *at, ids.as_slice()),
    }
}

/// The text of a line, with its line feed. 0 only ends a list, so the ids and hints aren't 0.
pub fn write_line(alloc: Global, line: &ProofLine) -> Result<Vec<u8>, AllocError>
    requires { IsReadable line.now }
    ensures { IfOk result (λ text. IsTextOf line.now text.items) }
{
    let mut out = Vec::new(alloc);
    push_line(&mut out, line)?;
    Ok(out)
}
