//! From the text of a model to the text of the list of its solutions.

ghost use Rattle.std.specs.Prelude.{◌≡◌, ◌≤◌, length, IfOk, IfErr};
ghost use Rattle.model_meaning.specs.WellTyped.{WellTyped};
ghost use Rattle.model_meaning.specs.Limits.{InLimits};
ghost use Rattle.model_weight.specs.Weight.{weight_of};
ghost use Rattle.model_lower.specs.Weighed.{most_weight};
ghost use Rattle.model_lower.specs.Faults.{IsFaultOf};
ghost use Rattle.model_texts.specs.ModelTexts.{longest_text, IsCauseOf};
ghost use Rattle.decode_minimize.specs.Answers.{IsBudget};
ghost use Rattle.all_mode.specs.Listed.{outcome_of, IsListText, IsListed};

use crate::answering::list_model;
use all_solutions::ListWatcher;
use list_text::{write_list, written_law};
use model_lower::LowerFault;
use model_meaning::Model;
use model_texts::{ModelTextFault, lower_fault, model_of};
use search_options::SearchOptions;
use search_watcher::Silent;
use std::alloc::{AllocError, Global};
use std::cell::RefCell;
use text_modes::Outcome;

/// What a list says of the run: a search that was given up tells its budget.
fn outcome_of(complete: bool, options: SearchOptions) -> Outcome
    ensures { result ≡ outcome_of complete options.budget }
{
    if complete {
        Outcome::Done
    } else {
        Outcome::Unknown(options.budget)
    }
}

/// The text of the list of a model's solutions, with what it says of the run.
fn write_solutions<W: ListWatcher>(
    alloc: Global,
    model: &Model,
    options: SearchOptions,
    watcher: &mut W,
) -> Result<(Outcome, Vec<u8>), LowerFault>
    requires typed { WellTyped model.now }
    requires limits { InLimits model.now }
    requires budget { IsBudget options.budget }
    ensures light { IfOk result (λ made. weight_of model.now ≤ most_weight) }
    ensures text { IfOk result (λ made. IsListText options model.now made.0 made.1.items) }
    ensures heavy { IfErr result (λ e. IsFaultOf e model.now) }
{
    let document = list_model(alloc, model, options, watcher)?;
    let text = write_list(alloc, model, &document)?;
    Ok((outcome_of(document.complete, options), text))
}

/// The text of the list of the solutions of the model that a text says.
fn all_text<W: ListWatcher>(
    alloc: Global,
    text: &[u8],
    options: SearchOptions,
    watcher: &mut W,
) -> Result<(Outcome, Vec<u8>), ModelTextFault>
    requires short { length text.now ≤ longest_text }
    requires budget { IsBudget options.budget }
    ensures listed { IfOk result (λ made. IsListed options text.now made.0 made.1.items) }
    ensures fault { IfErr result (λ e. IsCauseOf e text.now) }
{
    // The law that the text of a list is whole; it does nothing.
    written_law();
    let model = model_of(alloc, text)?;
    match write_solutions(alloc, &model, options, watcher) {
        Ok(written) => Ok(written),
        Err(fault) => Err(lower_fault(fault)),
    }
}

/// The same, of which a watcher in a cell is told. Where the cell is in use, which it isn't, nobody is.
pub(crate) fn told_text<W: ListWatcher>(
    alloc: Global,
    text: &[u8],
    options: SearchOptions,
    watcher: &RefCell<W>,
) -> Result<(Outcome, Vec<u8>), ModelTextFault>
    requires short { length text.now ≤ longest_text }
    requires budget { IsBudget options.budget }
    ensures listed { IfOk result (λ made. IsListed options text.now made.0 made.1.items) }
    ensures fault { IfErr result (λ e. IsCauseOf e text.now) }
{
    match watcher.try_borrow_mut() {
        Ok(mut watcher) => all_text(alloc, text, options, &mut *watcher),
        Err(_) => all_text(alloc, text, options, &mut Silent),
    }
}
