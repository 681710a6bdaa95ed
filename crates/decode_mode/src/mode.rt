//! The mode `decode`.

ghost use Rattle.text_modes.specs.Seen.{seen, shelf_shown, sink_shown};
ghost use Rattle.decode_mode.specs.DecodeMode.{DecodeMode};

use crate::fault::RefusedValues;
use crate::making::decode_text;
use bee_outside::{Shelf, Sink};
use dimacs_out::CnfText;
use dimacs_read::{CompiledTextFault, read_compiled};
use std::alloc::{AllocError, Global};
use std::cell::Cell;
use text_modes::{End, Outcome, TwoTexts, run_two};

/// A compiled text is read first, and then an answer. Its fault is the first line that fails. What stands against a
/// line of the answer goes beside, into a cell, since no clause speaks of it.
#[derive(Drop)]
struct Decoding<'a> {
    noted: &'a Cell<Option<RefusedValues>>,
}

impl TwoTexts for Decoding<'_> {
    ghost use Rattle.std.specs.Prelude.{None};
    ghost use Rattle.dimacs_read.specs.TextSteps.{TextFails};
    ghost use Rattle.decode_mode.specs.Decoded.{Holds, Gives};

    type Held = CnfText;

    type Fault = u64;

    ghost most = { λ _. None };

    ghost holds = { λ _. Holds };

    ghost has_fault = { λ _. TextFails };

    ghost gives = { λ _. Gives };

    fn limit(&self) -> Option<usize> {
        None
    }

    // A compiled text may have any length, so this is never asked.
    #[tactic(auto, using(crate::proofs::Ends::never_too_long))]
    fn too_long(&self) -> u64 {
        0
    }

    fn judge(&self, alloc: Global, first: &[u8]) -> Result<Result<CnfText, u64>, AllocError> {
        match read_compiled(alloc, first) {
            Ok(held) => Ok(Ok(held)),
            Err(CompiledTextFault::Form(line)) => Ok(Err(line)),
            Err(CompiledTextFault::Memory) => Err(AllocError),
        }
    }

    fn make(
        &self,
        alloc: Global,
        held: CnfText,
        answer: &[u8],
    ) -> Result<(Outcome, Vec<u8>), AllocError> {
        decode_text(alloc, &held, answer, self.noted)
    }
}

/// Reads the compiled text whole, tests its form, and then does so with the answer; makes the whole text, and then
/// writes it. The fault of the compiled text is the first line that fails. Where both have one name, the answer is
/// what the reading of the compiled text left: on a shelf that tells its bytes, nothing. What stands against a line of
/// the answer is put into the cell.
pub fn decode<S: Shelf, O: Sink>(
    alloc: Global,
    input: &str,
    second: &str,
    shelf: &mut S,
    out: &mut O,
    noted: &Cell<Option<RefusedValues>>,
) -> End<u64>
    ensures { DecodeMode input.now second.now result (seen (shelf_shown S.left S.faults)
        (sink_shown O.taken O.flushed O.faults) shelf.old shelf.new out.old out.new) }
{
    run_two(alloc, &Decoding { noted }, input, second, shelf, out)
}
