//! The mode `drup`.

ghost use Rattle.text_modes.specs.Seen.{seen, shelf_shown, sink_shown};
ghost use Rattle.drup_mode.specs.DrupMode.{DrupMode};

use crate::fault::RefusedProof;
use crate::making::check_text;
use bee_outside::{Shelf, Sink};
use order_ints::Cnf;
use sat_front::{CnfFault, CnfTextFault, LONGEST_TEXT, read_cnf};
use std::alloc::{AllocError, Global};
use std::cell::Cell;
use text_modes::{End, Outcome, TwoTexts, run_two};

/// A CNF's text is read first, and then a proof. Its fault is that of the CNF's text. What stands against a line of
/// the proof goes beside, into a cell, since no clause speaks of it.
#[derive(Drop)]
struct Proving<'a> {
    noted: &'a Cell<Option<RefusedProof>>,
}

impl TwoTexts for Proving<'_> {
    ghost use Rattle.std.specs.Prelude.{◌+◌, Some};
    ghost use Rattle.sat_front.specs.HeldCnfs.{longest_text, HoldsCnf, HasFault};
    ghost use Rattle.drup_mode.specs.Proved.{Gives};

    type Held = Cnf;

    type Fault = CnfTextFault;

    ghost most = { λ _. Some (longest_text + 1) };

    ghost holds = { λ _. HoldsCnf };

    ghost has_fault = { λ _. HasFault };

    ghost gives = { λ _. Gives };

    fn limit(&self) -> Option<usize> {
        Some(LONGEST_TEXT + 1)
    }

    fn too_long(&self) -> CnfTextFault {
        CnfTextFault::TooLong
    }

    #[tactic(auto, using(crate::proofs::Ends::held_within))]
    fn judge(&self, alloc: Global, first: &[u8]) -> Result<Result<Cnf, CnfTextFault>, AllocError> {
        match read_cnf(alloc, first) {
            Ok(cnf) => Ok(Ok(cnf)),
            Err(CnfFault::Form(line)) => Ok(Err(CnfTextFault::Form(line))),
            Err(CnfFault::Memory) => Err(AllocError),
        }
    }

    fn make(
        &self,
        alloc: Global,
        held: Cnf,
        proof: &[u8],
    ) -> Result<(Outcome, Vec<u8>), AllocError> {
        check_text(alloc, &held, proof, self.noted)
    }
}

/// Reads a CNF's text, and then a proof, which may have any length, and checks it; makes the line that tells what came
/// of that, and then writes it. Where both have one name, the proof is what the reading of the CNF left: on a shelf
/// that tells its bytes, nothing, which is a proof exactly where the clauses show the empty one, and else is refused
/// at line 1. What stands against a line of the proof is put into the cell.
pub fn drup<S: Shelf, O: Sink>(
    alloc: Global,
    input: &str,
    second: &str,
    shelf: &mut S,
    out: &mut O,
    noted: &Cell<Option<RefusedProof>>,
) -> End<CnfTextFault>
    ensures { DrupMode input.now second.now result (seen (shelf_shown S.left S.faults)
        (sink_shown O.taken O.flushed O.faults) shelf.old shelf.new out.old out.new) }
{
    run_two(alloc, &Proving { noted }, input, second, shelf, out)
}
