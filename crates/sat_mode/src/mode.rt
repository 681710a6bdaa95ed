//! The mode `sat`.

ghost use Rattle.text_modes.specs.Seen.{seen, shelf_shown, sink_shown};
ghost use Rattle.sat_mode.specs.SatMode.{SatMode};

use crate::making::solve_text;
use bee_outside::{Shelf, Sink};
use sat_front::{CnfTextFault, LONGEST_TEXT};
use search_options::SearchOptions;
use search_watcher::{Silent, Watcher};
use std::alloc::{AllocError, Global};
use std::cell::RefCell;
use text_modes::{End, Made, OneText, run_one};

/// A CNF's text is read, and what was found of it is written.
#[derive(Drop)]
struct Searching<'a, W: Watcher> {
    options: SearchOptions,
    watcher: &'a RefCell<W>,
}

impl<W: Watcher> OneText for Searching<'_, W> {
    ghost use Rattle.std.specs.Prelude.{◌+◌, Some};
    ghost use Rattle.sat_front.specs.HeldCnfs.{longest_text, HasFault};
    ghost use Rattle.sat_mode.specs.Found.{IsSolved};

    type Fault = CnfTextFault;

    ghost most = { λ _. Some (longest_text + 1) };

    ghost gives = { λ s. IsSolved s.options };

    ghost has_fault = { λ _. HasFault };

    fn limit(&self) -> Option<usize> {
        Some(LONGEST_TEXT + 1)
    }

    fn too_long(&self) -> CnfTextFault {
        CnfTextFault::TooLong
    }

    #[tactic(auto, using(sat_front::proofs::TextFaults::within_limit))]
    fn make(&self, alloc: Global, text: &[u8]) -> Result<Made<CnfTextFault>, AllocError> {
        match self.watcher.try_borrow_mut() {
            Ok(mut watcher) => solve_text(alloc, text, self.options, &mut *watcher),
            Err(_) => solve_text(alloc, text, self.options, &mut Silent),
        }
    }
}

/// Reads a CNF's text, searches for values or a refutation, makes the whole text of what was found, and then writes it.
/// The end tells whether the budget was spent.
pub fn sat<S: Shelf, O: Sink, W: Watcher>(
    alloc: Global,
    input: &str,
    options: SearchOptions,
    shelf: &mut S,
    out: &mut O,
    watcher: &RefCell<W>,
) -> End<CnfTextFault>
    ensures { SatMode options input.now result (seen (shelf_shown S.left S.faults)
        (sink_shown O.taken O.flushed O.faults) shelf.old shelf.new out.old out.new) }
{
    run_one(alloc, &Searching { options, watcher }, input, shelf, out)
}
