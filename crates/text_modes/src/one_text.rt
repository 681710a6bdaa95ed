//! A mode that reads one text.

ghost use Rattle.std.specs.Prelude.{◌≡◌, ◌<◌, ◌≤◌, ℕ, List, length, Some, IfOk, IfSome};
ghost use Rattle.text_modes.specs.Seen.{seen, shelf_shown, sink_shown};
ghost use Rattle.text_modes.specs.Ends.{IsMade};
ghost use Rattle.text_modes.specs.Promises.{Writes};
ghost use Rattle.text_modes.specs.OneText.{OneTextRun};

use crate::ends::{End, Made};
use bee_outside::{Failed, ReadText, Shelf, ShelfFault, Sink, read_all, write_all};
use std::alloc::{AllocError, Global};

/// A mode that reads one text, and writes another one for it. It has three meanings: how many bytes are read at most,
/// so that a text that has so many is too long; which text is written for which text, with which outcome; and which
/// fault a text has.
pub trait OneText {
    ghost use Rattle.std.specs.Prelude.{ℕ, List, Option};
    ghost use Rattle.text_modes.specs.declared.ends.Outcome.{Outcome};

    /// Why nothing is written for a text.
    type Fault;

    ghost most: { Self → Option ℕ };

    ghost gives: { Self → List ℕ → Outcome → List ℕ → Type 0 };

    ghost has_fault: { Self → List ℕ → Self.Fault → Type 0 };

    /// How many bytes are read at most.
    fn limit(&self) -> Option<usize>
        ensures { result ≡ most self.now };

    /// The fault of a text that has so many bytes; where there is no limit, any.
    fn too_long(&self) -> Self::Fault
        ensures { (n : ℕ) (text : List ℕ) → most self.now ≡ Some n → n ≤ length text
            → has_fault self.now text result };

    /// The text that is written for one, or its fault.
    fn make(&self, alloc: Global, text: &[u8]) -> Result<Made<Self::Fault>, AllocError>
        requires { IfSome (most self.now) (λ n. length text.now < n) }
        ensures { IfOk result (IsMade (gives self.now text.now) (has_fault self.now text.now)) };
}

/// Makes the whole text that is written for one, and then writes it.
fn write_made<M: OneText, O: Sink>(
    alloc: Global,
    mode: &M,
    text: &[u8],
    out: &mut O,
) -> End<M::Fault>
    requires { IfSome (M.most mode.now) (λ n. length text.now < n) }
    ensures { Writes (M.gives mode.now text.now) (M.has_fault mode.now text.now) result
        (sink_shown O.taken O.flushed O.faults out.old) (sink_shown O.taken O.flushed O.faults out.new) }
{
    match mode.make(alloc, text) {
        Ok(Made::Text(outcome, written)) => match write_all(out, written.as_slice()) {
            Ok(()) => End::Wrote(outcome),
            Err(Failed) => End::Write,
        },
        Ok(Made::Fault(fault)) => End::Fault(fault),
        Err(AllocError) => End::Memory,
    }
}

/// Reads the text, makes the whole text that is written for it, and then writes that.
pub fn run_one<M: OneText, S: Shelf, O: Sink>(
    alloc: Global,
    mode: &M,
    input: &str,
    shelf: &mut S,
    out: &mut O,
) -> End<M::Fault>
    ensures { OneTextRun (M.most mode.now) (M.gives mode.now) (M.has_fault mode.now) input.now result
        (seen (shelf_shown S.left S.faults) (sink_shown O.taken O.flushed O.faults) shelf.old shelf.new out.old
        out.new) }
{
    let text = match read_all(alloc, shelf, input, mode.limit()) {
        Ok(ReadText::Whole(text)) => text,
        Ok(ReadText::Cut(_)) => return End::Fault(mode.too_long()),
        Err(ShelfFault::Failed) => return End::Read,
        Err(ShelfFault::Memory) => return End::Memory,
    };
    write_made(alloc, mode, text.as_slice(), out)
}
