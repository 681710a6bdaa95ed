//! Reads a pseudo-Boolean file.

ghost use Rattle.std.specs.Prelude.{◌≡◌, ℕ, ◌+◌, Ok, Err, IfOk, IfErr};
ghost use Rattle.opb_front.specs.declared.items.Opb.{Opb};
ghost use Rattle.opb_front.specs.declared.fault.OpbFault.{OpbFault};
ghost use Rattle.opb_front.specs.Words.{text_lines};
ghost use Rattle.opb_front.specs.Grammar.{IsOpbText};
ghost use Rattle.opb_front.specs.Steps.{run_lines, IsEnded};
ghost use Rattle.opb_front.specs.Outcomes.{fault_at, IsTakenFrom, IsOutcome};
ghost use Rattle.opb_front.specs.Faults.{OpbFaultOf, IsFaultOf, IsReadAs, FailsAs};

use crate::draft::OpbDraft;
use crate::fault::{Misfit, OpbFault};
use crate::items::Opb;
use bee_text::Lines;
use std::alloc::{AllocError, Global};

/// How the lines of a text were taken.
enum Taken {
    /// All fit, and so many there are.
    All(u64),
    /// The line of this number has a token that doesn't fit.
    Stopped(Misfit, u64),
}

/// The fault in a line.
fn fault_at(misfit: Misfit, line: u64) -> OpbFault
    ensures { result ≡ fault_at misfit line }
{
    match misfit {
        Misfit::Syntax => OpbFault::Syntax(line),
        Misfit::Number => OpbFault::Number(line),
    }
}

/// Takes the lines of a text, to its end or to the first that has a token that doesn't fit.
fn take_lines(draft: &mut OpbDraft, text: &[u8]) -> Result<Taken, AllocError>
    ensures { IfOk result (IsTakenFrom draft.old text.now draft.new) }
{
    let mut lines = Lines::new(text);
    let mut read: u64 = 0;
    while let Some(line) = lines.next_line() {
        read = line.number as u64;
        if let Some(misfit) = draft.take_line(line.bytes)? {
            return Ok(Taken::Stopped(misfit, read));
        }
    }
    match draft.take_line(lines.rest())? {
        Some(misfit) => Ok(Taken::Stopped(misfit, read + 1)),
        None => Ok(Taken::All(read + 1)),
    }
}

/// What a text says, or its first fault.
fn read_text(alloc: Global, text: &[u8]) -> Result<Opb, OpbFault>
    ensures { IsOutcome text.now result }
{
    let mut draft = OpbDraft::new(alloc);
    match take_lines(&mut draft, text)? {
        Taken::All(_) if draft.is_ended() => Ok(draft.finish()),
        Taken::All(lines) => Err(OpbFault::Syntax(lines)),
        Taken::Stopped(misfit, line) => Err(fault_at(misfit, line)),
    }
}

/// What a pseudo-Boolean file says, or its first fault. One pass over the text.
pub fn read_opb(alloc: Global, text: &[u8]) -> Result<Opb, OpbFault>
    ensures read { IfOk result (IsOpbText text.now) }
    ensures fault { IfErr result (OpbFaultOf text.now) }
    ensures complete { (opb : Opb) → IsOpbText text.now opb → IsReadAs result opb }
    ensures exact { (fault : OpbFault) → IsFaultOf text.now fault → FailsAs result fault }
{
    read_text(alloc, text)
}
