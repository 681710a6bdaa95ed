//! The mode `all`.

ghost use Rattle.text_modes.specs.Seen.{seen, shelf_shown, sink_shown};
ghost use Rattle.decode_minimize.specs.Answers.{IsBudget};
ghost use Rattle.all_mode.specs.AllMode.{AllMode};

use crate::making::told_text;
use all_solutions::ListWatcher;
use bee_outside::{Shelf, Sink};
use model_texts::{LONGEST_TEXT, ModelFault, ModelTextFault};
use search_options::SearchOptions;
use std::alloc::{AllocError, Global};
use std::cell::RefCell;
use std::marker::Model;
use text_modes::{End, Made, OneText, run_one};

/// The text of a model is read, and that of the list of its solutions is written.
#[derive(Drop)]
struct Listing<'a, W: ListWatcher> {
    options: SearchOptions,
    watcher: &'a RefCell<W>,
}

impl<'a, W: ListWatcher> Model for Listing<'a, W> {
    ghost use Rattle.decode_minimize.specs.Answers.{IsBudget};
    ghost use Rattle.search_options.specs.declared.options.SearchOptions.{SearchOptions};

    ghost Value = { SearchOptions };

    ghost view = { λ s. s.options };

    ghost invariant = { λ s. IsBudget s.options.budget };
}

impl<W: ListWatcher> OneText for Listing<'_, W> {
    ghost use Rattle.std.specs.Prelude.{◌+◌, Some};
    ghost use Rattle.model_texts.specs.ModelTexts.{longest_text, HasFault};
    ghost use Rattle.all_mode.specs.Listed.{IsListed};

    type Fault = ModelFault;

    ghost most = { λ _. Some (longest_text + 1) };

    ghost gives = { λ options. IsListed options };

    ghost has_fault = { λ _. HasFault };

    fn limit(&self) -> Option<usize> {
        Some(LONGEST_TEXT + 1)
    }

    fn too_long(&self) -> ModelFault {
        ModelFault::TooLong
    }

    #[tactic(auto, using(crate::proofs::Ends::had_fault, crate::proofs::Ends::within_limit))]
    fn make(&self, alloc: Global, text: &[u8]) -> Result<Made<ModelFault>, AllocError> {
        match told_text(alloc, text, self.options, self.watcher) {
            Ok((outcome, written)) => Ok(Made::Text(outcome, written)),
            Err(ModelTextFault::Model(fault)) => Ok(Made::Fault(fault)),
            Err(ModelTextFault::Memory) => Err(AllocError),
        }
    }
}

/// Reads the text of a model, lists its solutions, makes the whole text of the list, and then writes it. The end tells
/// whether the budget was spent. How far the list is, the watcher is told.
pub fn list_solutions<S: Shelf, O: Sink, W: ListWatcher>(
    alloc: Global,
    input: &str,
    options: SearchOptions,
    shelf: &mut S,
    out: &mut O,
    watcher: &RefCell<W>,
) -> End<ModelFault>
    requires { IsBudget options.budget }
    ensures { AllMode options input.now result (seen (shelf_shown S.left S.faults)
        (sink_shown O.taken O.flushed O.faults) shelf.old shelf.new out.old out.new) }
{
    run_one(alloc, &Listing { options, watcher }, input, shelf, out)
}
