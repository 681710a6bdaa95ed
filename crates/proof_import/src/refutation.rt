//! Refutations, with hints or without.

ghost use Rattle.std.specs.Prelude.{◌≡◌, ℕ, ◌≤◌, ◌^◌, IfOk, IfErr, IsErrAnd};
ghost use Rattle.order_ints.specs.Place.{InRange};
ghost use Rattle.clause_rings.specs.Clauses.{AreApartIn};
ghost use Rattle.drup_check.specs.Taken.{IsRefusalAt};
ghost use Rattle.drup_check.specs.declared.fault.DrupFault.TheVariants.{Memory};
ghost use Rattle.lrat_check.specs.LratLines.{IsLrat, LratFails};
ghost use Rattle.proof_import.specs.Assumed.{with_assumed, IsAssumable, IsDerived};
ghost use Rattle.proof_import.specs.Refutations.{LratFaultOf, IsRefutation, RefutationFails, RefutationFaultOf};

use crate::assumed::with_assumed;
use crate::import::{derived, judged};
use bee_list::Sequence;
use drup_check::{DrupFault, check_drup};
use lrat_check::{LratEnd, answer_laws, check_lrat, is_lrat_text};
use order_ints::{Cnf, Lit};
use proof_check::ProofLine;
use std::alloc::Global;

/// Checks a text with hints.
fn check_hinted(alloc: Global, cnf: &Cnf, text: &[u8]) -> Result<(), DrupFault>
    requires few { cnf.now.vars ≤ 2 ^ 27 }
    requires in_range { InRange cnf.now }
    ensures accepted { IfOk result (λ _. IsLrat cnf.now text.now) }
    ensures fault { IfErr result (LratFaultOf cnf.now text.now) }
    ensures complete { IsLrat cnf.now text.now → IfErr result (λ e. e ≡ Memory) }
    ensures exact { (line : ℕ) → LratFails cnf.now text.now line → IsErrAnd result (IsRefusalAt line) }
{
    answer_laws();
    match check_lrat(alloc, cnf, text)? {
        LratEnd::Refused(line) => Err(DrupFault::Refused(line)),
        LratEnd::Proof(_) => Ok(()),
    }
}

/// The derivation that a text with hints gives.
fn hinted(
    alloc: Global,
    cnf: &Cnf,
    whole: &Cnf,
    assumed: Option<Lit>,
    text: &[u8],
) -> Result<Sequence<ProofLine>, DrupFault>
    requires few { whole.now.vars ≤ 2 ^ 27 }
    requires in_range { InRange whole.now }
    requires small { cnf.now.vars ≤ 2 ^ 27 }
    requires below { InRange cnf.now }
    ensures derived { IfOk result (IsDerived cnf.now assumed) }
    ensures accepted { IfOk result (λ _. IsLrat whole.now text.now) }
    ensures fault { IfErr result (LratFaultOf whole.now text.now) }
    ensures complete { IsLrat whole.now text.now → IfErr result (λ e. e ≡ Memory) }
    ensures exact { (line : ℕ) → LratFails whole.now text.now line → IsErrAnd result (IsRefusalAt line) }
{
    answer_laws();
    match check_lrat(alloc, whole, text)? {
        LratEnd::Refused(line) => Err(DrupFault::Refused(line)),
        LratEnd::Proof(found) => derived(alloc, cnf, assumed, found),
    }
}

/// The derivation that a text gives, with hints or without.
fn either(
    alloc: Global,
    cnf: &Cnf,
    whole: &Cnf,
    assumed: Option<Lit>,
    text: &[u8],
) -> Result<Sequence<ProofLine>, DrupFault>
    requires few { whole.now.vars ≤ 2 ^ 27 }
    requires in_range { InRange whole.now }
    requires apart { AreApartIn whole.now }
    requires small { cnf.now.vars ≤ 2 ^ 27 }
    requires below { InRange cnf.now }
    ensures derived { IfOk result (IsDerived cnf.now assumed) }
    ensures accepted { IfOk result (λ _. IsRefutation whole.now text.now) }
    ensures fault { IfErr result (RefutationFaultOf whole.now text.now) }
    ensures complete { IsRefutation whole.now text.now → IfErr result (λ e. e ≡ Memory) }
    ensures exact { (line : ℕ) → RefutationFails whole.now text.now line → IsErrAnd result (IsRefusalAt line) }
{
    if is_lrat_text(text) {
        hinted(alloc, cnf, whole, assumed, text)
    } else {
        judged(alloc, cnf, whole, assumed, text)
    }
}

/// Checks a refutation of a CNF, which has hints where its first line says so.
pub fn check_refutation(alloc: Global, cnf: &Cnf, text: &[u8]) -> Result<(), DrupFault>
    requires few { cnf.now.vars ≤ 2 ^ 27 }
    requires in_range { InRange cnf.now }
    requires apart { AreApartIn cnf.now }
    ensures accepted { IfOk result (λ _. IsRefutation cnf.now text.now) }
    ensures fault { IfErr result (RefutationFaultOf cnf.now text.now) }
    ensures complete { IsRefutation cnf.now text.now → IfErr result (λ e. e ≡ Memory) }
    ensures exact { (line : ℕ) → RefutationFails cnf.now text.now line → IsErrAnd result (IsRefusalAt line) }
{
    if is_lrat_text(text) {
        check_hinted(alloc, cnf, text)
    } else {
        check_drup(alloc, cnf, text)
    }
}

/// The derivation from a CNF that a refutation of it, or of it with an assumed literal, gives: lines with hints, of
/// which only those stay that the last one needs, and where the literal was used, its negation joins the clause. A text
/// with hints, which its first line tells, takes the time of `check_lrat`; another one that of `check_drup` twice, and
/// for each line that of a walk down the trail to the oldest variable of its reasons. In both cases the clauses that the
/// hints name are looked at once more.
pub fn import_refutation(
    alloc: Global,
    cnf: &Cnf,
    assumed: Option<Lit>,
    text: &[u8],
) -> Result<Sequence<ProofLine>, DrupFault>
    requires few { cnf.now.vars ≤ 2 ^ 27 }
    requires in_range { InRange cnf.now }
    requires apart { AreApartIn cnf.now }
    requires assumable { IsAssumable cnf.now assumed }
    ensures derived { IfOk result (IsDerived cnf.now assumed) }
    ensures accepted { IfOk result (λ _. IsRefutation (with_assumed cnf.now assumed) text.now) }
    ensures fault { IfErr result (RefutationFaultOf (with_assumed cnf.now assumed) text.now) }
    ensures complete { IsRefutation (with_assumed cnf.now assumed) text.now → IfErr result (λ e. e ≡ Memory) }
    ensures exact { (line : ℕ) → RefutationFails (with_assumed cnf.now assumed) text.now line
        → IsErrAnd result (IsRefusalAt line) }
{
    match assumed {
        None => either(alloc, cnf, cnf, None, text),
        Some(l) => {
            let whole = with_assumed(alloc, cnf, l)?;
            either(alloc, cnf, &whole, assumed, text)
        }
    }
}
