//! The mode `solve`.

ghost use Rattle.text_modes.specs.Seen.{seen, shelf_shown, sink_shown};
ghost use Rattle.decode_minimize.specs.Answers.{IsBudget};
ghost use Rattle.decode_minimize.specs.Heard.{HearsAll};
ghost use Rattle.solve_mode.specs.SolveMode.{SolveMode};

use crate::making::told_text;
use bee_outside::{Shelf, Sink};
use decode_minimize::SolutionWatcher;
use model_texts::{LONGEST_TEXT, ModelFault, ModelTextFault};
use search_options::SearchOptions;
use std::alloc::{AllocError, Global};
use std::cell::RefCell;
use std::marker::Model;
use text_modes::{End, Made, OneText, run_one};

/// The text of a model is read, and that of its answer is written.
#[derive(Drop)]
struct Solving<'a, W: SolutionWatcher> {
    options: SearchOptions,
    watcher: &'a RefCell<W>,
}

impl<'a, W: SolutionWatcher> Model for Solving<'a, W> {
    ghost use Rattle.decode_minimize.specs.Answers.{IsBudget};
    ghost use Rattle.decode_minimize.specs.Heard.{HearsAll};
    ghost use Rattle.search_options.specs.declared.options.SearchOptions.{SearchOptions};

    ghost Value = { SearchOptions };

    ghost view = { λ s. s.options };

    ghost invariant = { λ s. IsBudget s.options.budget × HearsAll W.heard };
}

impl<W: SolutionWatcher> OneText for Solving<'_, W> {
    ghost use Rattle.std.specs.Prelude.{◌+◌, Some};
    ghost use Rattle.model_texts.specs.ModelTexts.{longest_text, HasFault};
    ghost use Rattle.solve_mode.specs.Solved.{IsSolved};

    type Fault = ModelFault;

    ghost most = { λ _. Some (longest_text + 1) };

    ghost gives = { λ options. IsSolved options };

    ghost has_fault = { λ _. HasFault };

    fn limit(&self) -> Option<usize> {
        Some(LONGEST_TEXT + 1)
    }

    fn too_long(&self) -> ModelFault {
        ModelFault::TooLong
    }

    #[tactic(auto, using(crate::proofs::Ends::ends))]
    fn make(&self, alloc: Global, text: &[u8]) -> Result<Made<ModelFault>, AllocError> {
        match told_text(alloc, text, self.options, self.watcher) {
            Ok((outcome, written)) => Ok(Made::Text(outcome, written)),
            Err(ModelTextFault::Model(fault)) => Ok(Made::Fault(fault)),
            Err(ModelTextFault::Memory) => Err(AllocError),
        }
    }
}

/// Reads the text of a model, seeks an answer to it, makes the whole text of that, and then writes it. The end tells
/// whether the budget was spent.
pub fn solve<S: Shelf, O: Sink, W: SolutionWatcher>(
    alloc: Global,
    input: &str,
    options: SearchOptions,
    shelf: &mut S,
    out: &mut O,
    watcher: &RefCell<W>,
) -> End<ModelFault>
    requires budget { IsBudget options.budget }
    requires heard { HearsAll W.heard }
    ensures { SolveMode options input.now result (seen (shelf_shown S.left S.faults)
        (sink_shown O.taken O.flushed O.faults) shelf.old shelf.new out.old out.new) }
{
    run_one(alloc, &Solving { options, watcher }, input, shelf, out)
}
