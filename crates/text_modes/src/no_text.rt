//! A mode that reads no text.

ghost use Rattle.std.specs.Prelude.{IfOk};
ghost use Rattle.text_modes.specs.Seen.{ShelfShown, sink_shown};
ghost use Rattle.text_modes.specs.NoText.{NoTextRun, unread};

use crate::ends::{End, Outcome};
use bee_outside::{Failed, Sink, write_all};
use std::alloc::{AllocError, Global};

/// A mode that reads no text, and writes one. It has one meaning: which text is written, with which outcome.
pub trait NoText {
    ghost use Rattle.std.specs.Prelude.{ℕ, List};
    ghost use Rattle.text_modes.specs.declared.ends.Outcome.{Outcome};

    ghost gives: { Self → Outcome → List ℕ → Type 0 };

    /// The text that is written, with its outcome.
    fn make(&self, alloc: Global) -> Result<(Outcome, Vec<u8>), AllocError>
        ensures { IfOk result (λ made. gives self.now made.0 made.1.items) };
}

/// Makes the whole text that is written, and then writes it. The shelf isn't asked for anything, so it shows the same
/// after the run as before it, whatever that is.
pub fn run_none<F, M: NoText, O: Sink>(alloc: Global, mode: &M, out: &mut O) -> End<F>
    ensures { (shelf : ShelfShown) → NoTextRun (M.gives mode.now) result
        (unread shelf (sink_shown O.taken O.flushed O.faults out.old) (sink_shown O.taken O.flushed O.faults out.new)) }
{
    match mode.make(alloc) {
        Ok((outcome, written)) => match write_all(out, written.as_slice()) {
            Ok(()) => End::Wrote(outcome),
            Err(Failed) => End::Write,
        },
        Err(AllocError) => End::Memory,
    }
}
