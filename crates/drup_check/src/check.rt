//! Checks a proof.

ghost use Rattle.std.specs.Prelude.{◌≡◌, ℕ, ◌≤◌, ◌^◌, IfOk, IfErr, IsErrAnd, MatchOption};
ghost use Rattle.order_ints.specs.Place.{InRange};
ghost use Rattle.clause_rings.specs.Clauses.{AreApartIn};
ghost use Rattle.drup_check.specs.DrupLines.{IsDrup, DrupFails};
ghost use Rattle.drup_check.specs.Taken.{DrupFaultOf, IsRefusalAt};
ghost use Rattle.drup_check.specs.declared.fault.DrupFault.TheVariants.{Memory};

use crate::fault::DrupFault;
use crate::store::ProofStore;
use order_ints::Cnf;
use sat_front::cut_line;
use std::alloc::{AllocError, Global};

/// The first line of a text that fails, none where the text is a proof from a CNF.
fn first_refused(alloc: Global, cnf: &Cnf, text: &[u8]) -> Result<Option<u64>, AllocError>
    requires few { cnf.now.vars ≤ 2 ^ 27 }
    requires in_range { InRange cnf.now }
    requires apart { AreApartIn cnf.now }
    ensures { IfOk result (λ found. MatchOption found (IsDrup cnf.now text.now) (DrupFails cnf.now text.now)) }
{
    let mut store = ProofStore::with(alloc, cnf)?;
    let mut rest = text;
    let mut read: u64 = 0;
    while let Some((line, behind)) = cut_line(rest) {
        read += 1;
        if !store.take_line(alloc, line)? {
            return Ok(Some(read));
        }
        rest = behind;
    }
    let behind_last = read + 1;
    let refuted = store.is_refuted(alloc)?;
    if refuted {
        Ok(None)
    } else {
        Ok(Some(behind_last))
    }
}

/// Checks a proof from a CNF by clauses that reverse unit propagation shows. A clause with a literal and its negation
/// may stand in it, and a literal more than once. Deletions have no effect but on time, so a clause that is deleted may
/// be used later. Once the clauses show the empty one, of each further line only its form and its variables are tested.
/// Each clause takes the time of propagation from the denial of its literals, over the clauses that are not deleted;
/// where these don't show it, all deleted ones come back. Each clause stays in memory to the end.
pub fn check_drup(alloc: Global, cnf: &Cnf, text: &[u8]) -> Result<(), DrupFault>
    requires few { cnf.now.vars ≤ 2 ^ 27 }
    requires in_range { InRange cnf.now }
    requires apart { AreApartIn cnf.now }
    ensures accepted { IfOk result (λ _. IsDrup cnf.now text.now) }
    ensures fault { IfErr result (DrupFaultOf cnf.now text.now) }
    ensures complete { IsDrup cnf.now text.now → IfErr result (λ e. e ≡ Memory) }
    ensures exact { (line : ℕ) → DrupFails cnf.now text.now line → IsErrAnd result (IsRefusalAt line) }
{
    match first_refused(alloc, cnf, text)? {
        None => Ok(()),
        Some(line) => Err(DrupFault::Refused(line)),
    }
}
