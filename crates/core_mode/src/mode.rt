//! The mode `core`.

ghost use Rattle.text_modes.specs.Seen.{seen, shelf_shown, sink_shown};
ghost use Rattle.decode_minimize.specs.Answers.{IsBudget};
ghost use Rattle.core_mode.specs.CoreMode.{CoreMode};

use crate::making::conflict_of;
use bee_outside::{Shelf, Sink};
use core_extract::ConflictWatcher;
use model_texts::{LONGEST_TEXT, ModelFault, ModelTextFault};
use search_options::SearchOptions;
use std::alloc::{AllocError, Global};
use std::cell::RefCell;
use std::marker::Model;
use text_modes::{End, Made, OneText, run_one};

/// The text of a model is read, and that of its conflict is written.
#[derive(Drop)]
struct Extracting<'a, W: ConflictWatcher> {
    options: SearchOptions,
    watcher: &'a RefCell<W>,
}

impl<'a, W: ConflictWatcher> Model for Extracting<'a, W> {
    ghost use Rattle.decode_minimize.specs.Answers.{IsBudget};
    ghost use Rattle.search_options.specs.declared.options.SearchOptions.{SearchOptions};

    ghost Value = { SearchOptions };

    ghost view = { λ s. s.options };

    ghost invariant = { λ s. IsBudget s.options.budget };
}

impl<W: ConflictWatcher> OneText for Extracting<'_, W> {
    ghost use Rattle.std.specs.Prelude.{◌+◌, Some};
    ghost use Rattle.model_texts.specs.ModelTexts.{longest_text};
    ghost use Rattle.conflict_models.specs.ConflictModels.{HasFaultOf};
    ghost use Rattle.core_mode.specs.Conflicts.{IsConflictHeld};

    type Fault = ModelFault;

    ghost most = { λ _. Some (longest_text + 1) };

    ghost gives = { λ options. IsConflictHeld options };

    ghost has_fault = { λ _. HasFaultOf };

    fn limit(&self) -> Option<usize> {
        Some(LONGEST_TEXT + 1)
    }

    fn too_long(&self) -> ModelFault {
        ModelFault::TooLong
    }

    #[tactic(auto, using(crate::proofs::Ends::had_fault, crate::proofs::Ends::within_limit))]
    fn make(&self, alloc: Global, text: &[u8]) -> Result<Made<ModelFault>, AllocError> {
        match conflict_of(alloc, text, self.options, self.watcher) {
            Ok((outcome, written)) => Ok(Made::Text(outcome, written)),
            Err(ModelTextFault::Model(fault)) => Ok(Made::Fault(fault)),
            Err(ModelTextFault::Memory) => Err(AllocError),
        }
    }
}

/// Reads the text of a model, seeks why it has no solution, makes the whole text of that, and then writes it. The end
/// tells whether the budget of a search was spent. How small the part is by now, the watcher is told.
pub fn core<S: Shelf, O: Sink, W: ConflictWatcher>(
    alloc: Global,
    input: &str,
    options: SearchOptions,
    shelf: &mut S,
    out: &mut O,
    watcher: &RefCell<W>,
) -> End<ModelFault>
    requires { IsBudget options.budget }
    ensures { CoreMode options input.now result (seen (shelf_shown S.left S.faults)
        (sink_shown O.taken O.flushed O.faults) shelf.old shelf.new out.old out.new) }
{
    run_one(alloc, &Extracting { options, watcher }, input, shelf, out)
}
