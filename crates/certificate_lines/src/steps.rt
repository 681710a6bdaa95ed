//! The lines of a ledger.

ghost use Rattle.std.specs.Prelude.{◌≡◌, ◌≤◌, IfOk, length};
ghost use Rattle.step_kernel.specs.Kernel.{IsKernel};
ghost use Rattle.certificate_lines.specs.CertificateLines.{IsStepLine, IsTakenTo};

use ledger_replay::Replay;
use ledger_text::read_step;
use std::alloc::AllocError;
use step_kernel::ApplyFault;

/// Takes a line, where it is one of the ledger and makes a step of the state; the answer says whether it is. Else, and
/// for want of memory, the state stays. A step takes the time that it takes a compiler.
pub fn take_step(state: &mut Replay, line: &[u8]) -> Result<bool, AllocError>
    ensures taken { IfOk result (IsTakenTo (IsStepLine state.old line.now) state.new) }

    // Variables stay, and more may come.
    ensures longer { length state.old.view ≤ length state.new.view }
{
    // Read for the proof alone, which knows the state's invariant from here on.
    let _vars = state.vars();
    match read_step(line) {
        None => Ok(false),
        Some(step) => match state.apply(&step) {
            Ok(()) => Ok(true),
            Err(ApplyFault::Step(_)) => Ok(false),
            Err(ApplyFault::Memory) => Err(AllocError),
        },
    }
}
