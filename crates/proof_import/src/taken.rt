//! Whether the checker takes the lines of a derivation.

ghost use Rattle.std.specs.Prelude.{◌≡◌, IfOk, Ok, IsTrue};
ghost use Rattle.proof_check.specs.Lines.{Each};
ghost use Rattle.proof_check.specs.Lrat.{take_line, take_lines};
ghost use Rattle.proof_import.specs.Assumed.{IsRefuted, IsAddition, LeadOn};

use order_ints::Lit;
use proof_check::{Checker, ProofLine, TakeFault};
use std::alloc::AllocError;

/// Whether the empty clause is known, or the negation of the assumed literal.
fn is_refuted(checker: &Checker, assumed: Option<Lit>) -> bool
    ensures { IsTrue result → IsRefuted checker.now assumed }
{
    match assumed {
        None => checker.known(&[]),
        Some(l) => checker.known(&[]) || checker.known(&[l.negated()]),
    }
}

/// Takes a line that adds a clause, unless it has a fault.
fn take_one(checker: &mut Checker, line: &ProofLine) -> Result<bool, AllocError>
    ensures addition { IfOk result (λ taken. IsTrue taken → IsAddition line.now) }
    ensures taken { IfOk result (λ taken. IsTrue taken → take_line checker.old line.now ≡ Ok checker.new) }
{
    let ProofLine::Add { id, lits, hints } = line else {
        return Ok(false);
    };
    match checker.take_addition(*id, lits.as_slice(), hints.as_slice()) {
        Ok(()) => Ok(true),
        Err(TakeFault::Memory) => Err(AllocError),
        Err(TakeFault::Proof(_)) => Ok(false),
    }
}

/// Takes lines, one after another, unless one has a fault, or deletes.
fn take_all(checker: &mut Checker, lines: &[ProofLine]) -> Result<bool, AllocError>
    ensures additions { IfOk result (λ taken. IsTrue taken → Each IsAddition lines.now) }
    ensures taken { IfOk result (λ taken. IsTrue taken → take_lines checker.old lines.now ≡ Ok checker.new) }
{
    let mut rest = lines;
    while let [line, others @ ..] = rest {
        if !take_one(checker, line)? {
            return Ok(false);
        }
        rest = others;
    }
    Ok(true)
}

/// Whether lines only add clauses, each without a fault, until the CNF is refuted, or an assumed literal. It takes the
/// time of the clauses that the hints name.
pub(crate) fn are_taken(
    checker: Checker,
    assumed: Option<Lit>,
    lines: &[ProofLine],
) -> Result<bool, AllocError>
    ensures { IfOk result (λ taken. IsTrue taken → LeadOn checker assumed lines.now) }
{
    let mut checker = checker;
    let taken = take_all(&mut checker, lines)?;
    if !taken {
        return Ok(false);
    }
    let refuted = is_refuted(&checker, assumed);
    Ok(refuted)
}
