//! The derivation of a refutation.

ghost use Rattle.std.specs.Prelude.{◌≡◌, ℕ, ◌≤◌, ◌^◌, IfOk, IfErr, IsErrAnd};
ghost use Rattle.order_ints.specs.Place.{InRange};
ghost use Rattle.clause_rings.specs.Clauses.{AreApartIn};
ghost use Rattle.drup_check.specs.DrupLines.{IsDrup, DrupFails};
ghost use Rattle.drup_check.specs.Taken.{DrupFaultOf, IsRefusalAt};
ghost use Rattle.drup_check.specs.declared.fault.DrupFault.TheVariants.{Memory};
ghost use Rattle.proof_check.specs.Lrat.{proof_of};
ghost use Rattle.proof_import.specs.Assumed.{LeadOn, IsDerived};

use crate::finder::found_lines;
use crate::taken::are_taken;
use crate::telling::telling_lines;
use crate::trimming::trimmed;
use bee_list::Sequence;
use drup_check::{DrupFault, check_drup};
use lrat_check::HintedLine;
use order_ints::{Cnf, Lit};
use proof_check::{Checker, ProofLine};
use std::alloc::Global;

/// Lines without hints that tell nothing, if the checker takes them.
fn told_anew(
    alloc: Global,
    cnf: &Cnf,
    assumed: Option<Lit>,
    lines: &[ProofLine],
) -> Result<Sequence<ProofLine>, DrupFault>
    requires small { cnf.now.vars ≤ 2 ^ 27 }
    requires below { InRange cnf.now }
    ensures led { IfOk result (LeadOn (proof_of cnf.now) assumed) }
    ensures memory { IfErr result (λ e. e ≡ Memory) }
{
    let checker = Checker::with(alloc, cnf)?;
    let lines = telling_lines(alloc, cnf, lines)?;
    if are_taken(checker, assumed, lines.as_slice())? {
        Ok(lines)
    } else {
        Err(DrupFault::Memory)
    }
}

/// The lines that the last of these needs, if the checker takes them; none where the empty clause is in the CNF. Hints of
/// another solver may tell the assumed literal: only where the checker refuses the lines they are looked at one by one. It
/// takes the time of a copy of the CNF, and of the clauses that the hints name, or twice that.
pub(crate) fn derived(
    alloc: Global,
    cnf: &Cnf,
    assumed: Option<Lit>,
    found: Vec<HintedLine>,
) -> Result<Sequence<ProofLine>, DrupFault>
    requires small { cnf.now.vars ≤ 2 ^ 27 }
    requires below { InRange cnf.now }
    ensures derived { IfOk result (IsDerived cnf.now assumed) }
    ensures memory { IfErr result (λ e. e ≡ Memory) }
{
    let checker = Checker::with(alloc, cnf)?;
    if checker.known(&[]) {
        return Ok(Sequence::from_vec(Vec::new(alloc)));
    }
    let lines = trimmed(alloc, found, cnf.clauses.len() as u64, assumed)?;
    if are_taken(checker, assumed, lines.as_slice())? {
        Ok(lines)
    } else {
        told_anew(alloc, cnf, assumed, lines.as_slice())
    }
}

/// The derivation that a text without hints gives, which is judged first.
pub(crate) fn judged(
    alloc: Global,
    cnf: &Cnf,
    whole: &Cnf,
    assumed: Option<Lit>,
    text: &[u8],
) -> Result<Sequence<ProofLine>, DrupFault>
    requires few { whole.now.vars ≤ 2 ^ 27 }
    requires in_range { InRange whole.now }
    requires apart { AreApartIn whole.now }
    requires small { cnf.now.vars ≤ 2 ^ 27 }
    requires below { InRange cnf.now }
    ensures derived { IfOk result (IsDerived cnf.now assumed) }
    ensures accepted { IfOk result (λ _. IsDrup whole.now text.now) }
    ensures fault { IfErr result (DrupFaultOf whole.now text.now) }
    ensures complete { IsDrup whole.now text.now → IfErr result (λ e. e ≡ Memory) }
    ensures exact { (line : ℕ) → DrupFails whole.now text.now line → IsErrAnd result (IsRefusalAt line) }
{
    match check_drup(alloc, whole, text) {
        Err(fault) => Err(fault),
        Ok(()) => {
            let found = found_lines(alloc, whole, text)?;
            derived(alloc, cnf, assumed, found)
        }
    }
}
