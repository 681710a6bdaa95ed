//! The lines of a derivation.

ghost use Rattle.std.specs.Prelude.{◌≡◌, IfOk};
ghost use Rattle.step_kernel.specs.CnfOf.{cnf_of};
ghost use Rattle.proof_check.specs.Lrat.{proof_of};
ghost use Rattle.certificate_lines.specs.CertificateLines.{IsDerivedLine, IsTakenTo};

use ledger_replay::Replay;
use proof_check::{Checker, LineRoom, ProofTextFault, TakeFault};
use std::alloc::{AllocError, Global};

/// The checker of derivations from the CNF of a state, before their first line.
pub fn checker_of(alloc: Global, state: &Replay) -> Result<Checker, AllocError>
    ensures { IfOk result (λ c. c ≡ proof_of (cnf_of state.now)) }
{
    // Read for the proof alone, which knows the state's invariant from here on.
    let _vars = state.vars();
    let cnf = state.cnf()?;
    Checker::with(alloc, &cnf)
}

/// Takes a line, where it is one of a derivation and continues the proof; the answer says whether it does. Else, and
/// for want of memory, the checker stays. The room serves line after line.
pub fn take_derived(
    checker: &mut Checker,
    room: &mut LineRoom,
    line: &[u8],
) -> Result<bool, AllocError>
    ensures taken { IfOk result (IsTakenTo (IsDerivedLine checker.old line.now) checker.new) }
{
    match room.read_bytes(line) {
        Err(ProofTextFault::Form(_)) => Ok(false),
        Err(ProofTextFault::Memory) => Err(AllocError),
        Ok(head) => match checker.take_read(head, room) {
            Ok(()) => Ok(true),
            Err(TakeFault::Proof(_)) => Ok(false),
            Err(TakeFault::Memory) => Err(AllocError),
        },
    }
}
