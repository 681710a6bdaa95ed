//! The texts that are written.

ghost use Rattle.std.specs.Prelude.{◌≡◌, ◌++◌, ◌<◌, ◌≤◌, ◌+◌, ◌^◌, map, length, OnOk, IfOk};
ghost use Rattle.bee_text.specs.Words.{words_behind};
ghost use Rattle.bee_text.specs.Lines.{join_lines};
ghost use Rattle.ledger_text.specs.Words.{literal_word};
ghost use Rattle.proof_check.specs.Lines.{line_bytes};
ghost use Rattle.sat_mode.specs.Texts.{literals_from, values_text, refutation_text, unknown_text};

use bee_text::{push_blank, push_bytes};
use ledger_text::push_literal;
use order_ints::Lit;
use proof_check::{ProofLine, push_line};
use std::alloc::{AllocError, Global};

/// Appends the literals that are true under values, that of variable 1 first, each behind a blank.
fn push_values(out: &mut Vec<u8>, values: &[bool]) -> Result<(), AllocError>
    requires { length values.now < 2 ^ 31 }
    ensures { OnOk result (out.new.items
        ≡ out.old.items ++ words_behind (map literal_word (literals_from 1 values.now))) }
{
    for i in 0..values.len() {
        push_blank(out)?;
        push_literal(out, Lit::of(i as u32 + 1, values[i]))?;
    }
    Ok(())
}

/// Appends the lines of a proof.
fn push_proof(out: &mut Vec<u8>, lines: &[ProofLine]) -> Result<(), AllocError>
    ensures { OnOk result (out.new.items ≡ out.old.items ++ join_lines (map line_bytes lines.now)) }
{
    for line in lines {
        push_line(out, line)?;
    }
    Ok(())
}

/// The text that tells values.
pub(crate) fn write_values(alloc: Global, values: &[bool]) -> Result<Vec<u8>, AllocError>
    requires { length values.now < 2 ^ 31 }
    ensures { IfOk result (λ text. text.items ≡ values_text values.now) }
{
    let mut out = Vec::new(alloc);
    push_bytes(&mut out, b"s SATISFIABLE\nv")?;
    push_values(&mut out, values)?;
    push_bytes(&mut out, b" 0\n")?;
    Ok(out)
}

/// The text that tells a refutation.
pub(crate) fn write_refutation(alloc: Global, lines: &[ProofLine]) -> Result<Vec<u8>, AllocError>
    ensures { IfOk result (λ text. text.items ≡ refutation_text lines.now) }
{
    let mut out = Vec::new(alloc);
    push_bytes(&mut out, b"s UNSATISFIABLE\n")?;
    push_proof(&mut out, lines)?;
    Ok(out)
}

/// The text that tells that the search was given up, and how far it came.
pub(crate) fn write_unknown(alloc: Global, lines: &[ProofLine]) -> Result<Vec<u8>, AllocError>
    ensures { IfOk result (λ text. text.items ≡ unknown_text lines.now) }
{
    let mut out = Vec::new(alloc);
    push_bytes(&mut out, b"s UNKNOWN\n")?;
    push_proof(&mut out, lines)?;
    Ok(out)
}
