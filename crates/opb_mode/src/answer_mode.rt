//! The mode `opb`.

ghost use Rattle.text_modes.specs.Seen.{seen, shelf_shown, sink_shown};
ghost use Rattle.decode_minimize.specs.Answers.{IsBudget};
ghost use Rattle.decode_minimize.specs.Heard.{HearsAll};
ghost use Rattle.opb_mode.specs.OpbMode.{OpbMode};

use crate::making::told_text;
use bee_outside::{Shelf, Sink};
use decode_minimize::SolutionWatcher;
use model_texts::{LONGEST_TEXT, ModelFault, ModelTextFault};
use search_options::SearchOptions;
use std::alloc::{AllocError, Global};
use std::cell::RefCell;
use std::marker::Model;
use text_modes::{End, Made, OneText, run_one};

/// The text of a file is read, and that of the answer to its model is written.
#[derive(Drop)]
struct SolvingFile<'a, W: SolutionWatcher> {
    options: SearchOptions,
    watcher: &'a RefCell<W>,
}

impl<'a, W: SolutionWatcher> Model for SolvingFile<'a, W> {
    ghost use Rattle.decode_minimize.specs.Answers.{IsBudget};
    ghost use Rattle.decode_minimize.specs.Heard.{HearsAll};
    ghost use Rattle.search_options.specs.declared.options.SearchOptions.{SearchOptions};

    ghost Value = { SearchOptions };

    ghost view = { λ s. s.options };

    ghost invariant = { λ s. IsBudget s.options.budget × HearsAll W.heard };
}

impl<W: SolutionWatcher> OneText for SolvingFile<'_, W> {
    ghost use Rattle.std.specs.Prelude.{◌+◌, Some};
    ghost use Rattle.model_texts.specs.ModelTexts.{longest_text};
    ghost use Rattle.opb_mode.specs.Files.{HasOpbFault};
    ghost use Rattle.opb_mode.specs.OpbMode.{IsSolvedFile};

    type Fault = ModelFault;

    ghost most = { λ _. Some (longest_text + 1) };

    ghost gives = { λ options. IsSolvedFile options };

    ghost has_fault = { λ _. HasOpbFault };

    fn limit(&self) -> Option<usize> {
        Some(LONGEST_TEXT + 1)
    }

    fn too_long(&self) -> ModelFault {
        ModelFault::TooLong
    }

    #[tactic(auto, using(crate::proofs::Faults::opb_had, crate::proofs::Faults::within_limit))]
    fn make(&self, alloc: Global, text: &[u8]) -> Result<Made<ModelFault>, AllocError> {
        match told_text(alloc, text, self.options, self.watcher) {
            Ok((outcome, written)) => Ok(Made::Text(outcome, written)),
            Err(ModelTextFault::Model(fault)) => Ok(Made::Fault(fault)),
            Err(ModelTextFault::Memory) => Err(AllocError),
        }
    }
}

/// Reads the text of a pseudo-Boolean file, seeks an answer to its model, makes the whole text of that, and then writes
/// it. The end tells whether the budget was spent.
pub fn opb<S: Shelf, O: Sink, W: SolutionWatcher>(
    alloc: Global,
    input: &str,
    options: SearchOptions,
    shelf: &mut S,
    out: &mut O,
    watcher: &RefCell<W>,
) -> End<ModelFault>
    requires budget { IsBudget options.budget }
    requires heard { HearsAll W.heard }
    ensures { OpbMode options input.now result (seen (shelf_shown S.left S.faults)
        (sink_shown O.taken O.flushed O.faults) shelf.old shelf.new out.old out.new) }
{
    run_one(alloc, &SolvingFile { options, watcher }, input, shelf, out)
}
