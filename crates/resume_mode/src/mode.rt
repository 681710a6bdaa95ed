//! The mode `resume`.

ghost use Rattle.text_modes.specs.Seen.{seen, shelf_shown, sink_shown};
ghost use Rattle.decode_minimize.specs.Answers.{IsBudget};
ghost use Rattle.decode_minimize.specs.Heard.{HearsAll};
ghost use Rattle.resume_mode.specs.ResumeMode.{ResumeMode};

use crate::fault::RefusedWish;
use crate::making::{light_model, told_text};
use bee_outside::{Shelf, Sink};
use decode_minimize::SolutionWatcher;
use model_meaning::Model;
use model_texts::{LONGEST_TEXT, ModelFault, ModelTextFault};
use search_options::SearchOptions;
use std::alloc::{AllocError, Global};
use std::cell::{Cell, RefCell};
use text_modes::{End, Outcome, TwoTexts, run_two};

/// How an answer is sought, and who is told.
#[derive(Drop)]
pub struct Resuming<'a, W: SolutionWatcher> {
    /// How it is sought.
    pub options: SearchOptions,
    /// Who is told of the search.
    pub watcher: &'a RefCell<W>,
    /// What stands against a line of what is wished for, where one is refused.
    pub noted: &'a Cell<Option<RefusedWish>>,
}

/// The text of a model is read first, and then what is wished for. What stands against a line of that goes beside, into
/// a cell, since no clause speaks of it.
#[derive(Drop)]
struct Resumption<'a, W: SolutionWatcher> {
    options: SearchOptions,
    watcher: &'a RefCell<W>,
    noted: &'a Cell<Option<RefusedWish>>,
}

impl<'a, W: SolutionWatcher> std::marker::Model for Resumption<'a, W> {
    ghost use Rattle.decode_minimize.specs.Answers.{IsBudget};
    ghost use Rattle.decode_minimize.specs.Heard.{HearsAll};
    ghost use Rattle.search_options.specs.declared.options.SearchOptions.{SearchOptions};

    ghost Value = { SearchOptions };

    ghost view = { λ s. s.options };

    ghost invariant = { λ s. IsBudget s.options.budget × HearsAll W.heard };
}

impl<W: SolutionWatcher> TwoTexts for Resumption<'_, W> {
    ghost use Rattle.std.specs.Prelude.{◌+◌, Some};
    ghost use Rattle.model_texts.specs.ModelTexts.{longest_text, HasFault};
    ghost use Rattle.model_texts.specs.HeldModels.{HoldsModel};
    ghost use Rattle.resume_mode.specs.Resumed.{Gives};

    type Held = Model;

    type Fault = ModelFault;

    ghost most = { λ _. Some (longest_text + 1) };

    ghost holds = { λ _. HoldsModel };

    ghost has_fault = { λ _. HasFault };

    ghost gives = { λ options. Gives options };

    fn limit(&self) -> Option<usize> {
        Some(LONGEST_TEXT + 1)
    }

    fn too_long(&self) -> ModelFault {
        ModelFault::TooLong
    }

    #[tactic(auto, using(crate::proofs::Ends::within_limit, crate::proofs::Ends::had_fault))]
    fn judge(&self, alloc: Global, first: &[u8]) -> Result<Result<Model, ModelFault>, AllocError> {
        match light_model(alloc, first) {
            Ok(model) => Ok(Ok(model)),
            Err(ModelTextFault::Model(fault)) => Ok(Err(fault)),
            Err(ModelTextFault::Memory) => Err(AllocError),
        }
    }

    #[tactic(auto, using(crate::proofs::Ends::given_resumed))]
    fn make(
        &self,
        alloc: Global,
        held: Model,
        wished: &[u8],
    ) -> Result<(Outcome, Vec<u8>), AllocError> {
        told_text(alloc, held, wished, self.options, self.watcher, self.noted)
    }
}

/// Reads the text of a model and judges it, and then reads what is wished for; seeks an answer, whose first round
/// decides that first, makes the whole text of it, or the line that tells which line fails first, and then writes that.
/// The end tells whether the budget was spent. Where both have one name, the second text is what the reading of the
/// model left: on a shelf that tells its bytes, nothing, by which nothing is wished for. What stands against a line
/// that is refused is put into the cell.
pub fn resume<S: Shelf, O: Sink, W: SolutionWatcher>(
    alloc: Global,
    input: &str,
    second: &str,
    how: &Resuming<'_, W>,
    shelf: &mut S,
    out: &mut O,
) -> End<ModelFault>
    requires budget { IsBudget how.now.options.budget }
    requires heard { HearsAll W.heard }
    ensures { ResumeMode how.now.options input.now second.now result (seen (shelf_shown S.left S.faults)
        (sink_shown O.taken O.flushed O.faults) shelf.old shelf.new out.old out.new) }
{
    let resumption = Resumption {
        options: how.options,
        watcher: how.watcher,
        noted: how.noted,
    };
    run_two(alloc, &resumption, input, second, shelf, out)
}
