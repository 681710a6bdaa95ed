//! From the size of a board to the text of an answer.

ghost use Rattle.std.specs.Prelude.{◌≤◌, IfOk};
ghost use Rattle.decode_minimize.specs.Answers.{IsBudget};
ghost use Rattle.decode_minimize.specs.Heard.{HearsAll};
ghost use Rattle.queens_mode.specs.QueensMode.{IsPlaced};

use crate::summary::write_summary;
use decode_minimize::SolutionWatcher;
use model_lower::LowerFault;
use queens_model::queens;
use search_options::SearchOptions;
use solve_mode::{answer_model, outcome_of};
use std::alloc::{AllocError, Global};
use text_modes::Outcome;

/// The text for a board. The model of each board is light, so that nothing but want of memory refuses it.
pub fn place<W: SolutionWatcher>(
    alloc: Global,
    size: u64,
    options: SearchOptions,
    watcher: &mut W,
) -> Result<(Outcome, Vec<u8>), AllocError>
    requires least { 4 ≤ size }
    requires most { size ≤ 24 }
    requires budget { IsBudget options.budget }
    requires heard { HearsAll W.heard }
    ensures { IfOk result (λ made. IsPlaced options size made.0 made.1.items) }
{
    let model = queens(alloc, size)?;
    match answer_model(alloc, model, options, watcher) {
        Ok(answered) => {
            let text = write_summary(alloc, size, &answered)?;
            Ok((outcome_of(answered.document.verdict), text))
        }
        Err(LowerFault::Memory) => Err(AllocError),
        Err(LowerFault::TooHeavy(_)) => unreachable!(),
    }
}
