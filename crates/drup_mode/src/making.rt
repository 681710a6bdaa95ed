//! From a CNF and the text of a proof to what the check says.

ghost use Rattle.std.specs.Prelude.{◌≡◌, ◌≤◌, IfOk};
ghost use Rattle.order_ints.specs.Place.{InRange};
ghost use Rattle.order_ints.specs.OrderedClauses.{ClausesAscend};
ghost use Rattle.drup_mode.specs.Proved.{accepted_text, IsCheck};

use crate::fault::{RefusedProof, fault_at};
use bee_text::{end_line, push_bytes};
use drup_check::{DrupFault, check_drup};
use order_ints::Cnf;
use std::alloc::{AllocError, Global};
use std::cell::Cell;
use text_modes::{Outcome, refusal};

/// The line that tells that a proof is valid.
fn acceptance(alloc: Global) -> Result<Vec<u8>, AllocError>
    ensures { IfOk result (λ text. text.items ≡ accepted_text) }
{
    let mut out = Vec::new(alloc);
    push_bytes(&mut out, b"ACCEPTED")?;
    end_line(&mut out)?;
    Ok(out)
}

/// What is written for a CNF and a proof: that it is valid, or the line that tells which line of it fails first; what
/// stands against that line is put into the cell.
pub(crate) fn check_text(
    alloc: Global,
    cnf: &Cnf,
    proof: &[u8],
    noted: &Cell<Option<RefusedProof>>,
) -> Result<(Outcome, Vec<u8>), AllocError>
    requires few { cnf.now.vars ≤ 67108864 }
    requires in_range { InRange cnf.now }
    requires ascend { ClausesAscend cnf.now.clauses }
    ensures { IfOk result (λ checked. IsCheck cnf.now proof.now checked.0 checked.1.items) }
{
    match check_drup(alloc, cnf, proof) {
        Ok(()) => {
            let text = acceptance(alloc)?;
            Ok((Outcome::Done, text))
        }
        Err(DrupFault::Refused(line)) => {
            noted.set(Some(fault_at(proof, line)));
            let text = refusal(alloc, line)?;
            Ok((Outcome::Refused(line), text))
        }
        Err(DrupFault::Memory) => Err(AllocError),
    }
}
