//! From the text of a model to the text of its answer.

ghost use Rattle.std.specs.Prelude.{◌≤◌, length, IfOk, IfErr};
ghost use Rattle.model_meaning.specs.WellTyped.{WellTyped};
ghost use Rattle.model_meaning.specs.Limits.{InLimits};
ghost use Rattle.model_weight.specs.Weight.{weight_of};
ghost use Rattle.model_lower.specs.Weighed.{most_weight};
ghost use Rattle.model_lower.specs.Faults.{IsFaultOf};
ghost use Rattle.model_texts.specs.ModelTexts.{longest_text, IsCauseOf};
ghost use Rattle.decode_minimize.specs.Answers.{IsBudget};
ghost use Rattle.decode_minimize.specs.Heard.{AreHeard, HearsAll};
ghost use Rattle.solve_mode.specs.Solved.{IsAnswerText, Answers};

use crate::answering::{answer_asked, outcome_of};
use answer_document::write_document;
use decode_minimize::{SolutionWatcher, WishedModel};
use model_lower::LowerFault;
use model_meaning::Model;
use model_texts::{ModelTextFault, lower_fault, model_of};
use search_options::SearchOptions;
use search_watcher::Silent;
use std::alloc::{AllocError, Global};
use std::cell::RefCell;
use text_modes::Outcome;

/// The text of the answer to a model, with what its verdict says of the run. The values that are wished for are decided
/// first in the first round; nothing is promised of that.
pub fn write_wished<W: SolutionWatcher>(
    alloc: Global,
    asked: WishedModel,
    options: SearchOptions,
    watcher: &mut W,
) -> Result<(Outcome, Vec<u8>), LowerFault>
    requires typed { WellTyped asked.model }
    requires limits { InLimits asked.model }
    requires budget { IsBudget options.budget }
    requires heard { AreHeard W.heard asked.model }
    ensures light { IfOk result (λ made. weight_of asked.model ≤ most_weight) }
    ensures text { IfOk result (λ made. IsAnswerText options asked.model made.0 made.1.items) }
    ensures heavy { IfErr result (λ e. IsFaultOf e asked.model) }
{
    let goal = asked.model.goal;
    let answered = answer_asked(alloc, asked, options, watcher)?;
    let decls = answered.decls.as_slice();
    let text = write_document(alloc, decls, goal, &answered.document)?;
    Ok((outcome_of(answered.document.verdict), text))
}

/// The same, where nothing is wished for.
pub fn write_answer<W: SolutionWatcher>(
    alloc: Global,
    model: Model,
    options: SearchOptions,
    watcher: &mut W,
) -> Result<(Outcome, Vec<u8>), LowerFault>
    requires typed { WellTyped model }
    requires limits { InLimits model }
    requires budget { IsBudget options.budget }
    requires heard { AreHeard W.heard model }
    ensures light { IfOk result (λ made. weight_of model ≤ most_weight) }
    ensures text { IfOk result (λ made. IsAnswerText options model made.0 made.1.items) }
    ensures heavy { IfErr result (λ e. IsFaultOf e model) }
{
    let asked = WishedModel {
        model,
        wish: Vec::new(alloc),
    };
    write_wished(alloc, asked, options, watcher)
}

/// The text of the answer to the model that a text says.
fn solve_text<W: SolutionWatcher>(
    alloc: Global,
    text: &[u8],
    options: SearchOptions,
    watcher: &mut W,
) -> Result<(Outcome, Vec<u8>), ModelTextFault>
    requires short { length text.now ≤ longest_text }
    requires budget { IsBudget options.budget }
    requires heard { HearsAll W.heard }
    ensures solved { IfOk result (λ made. Answers options text.now made.0 made.1.items) }
    ensures fault { IfErr result (λ e. IsCauseOf e text.now) }
{
    let model = model_of(alloc, text)?;
    match write_answer(alloc, model, options, watcher) {
        Ok(written) => Ok(written),
        Err(fault) => Err(lower_fault(fault)),
    }
}

/// The same, of which a watcher in a cell is told. Where the cell is in use, which it isn't, nobody is.
pub(crate) fn told_text<W: SolutionWatcher>(
    alloc: Global,
    text: &[u8],
    options: SearchOptions,
    watcher: &RefCell<W>,
) -> Result<(Outcome, Vec<u8>), ModelTextFault>
    requires short { length text.now ≤ longest_text }
    requires budget { IsBudget options.budget }
    requires heard { HearsAll W.heard }
    ensures solved { IfOk result (λ made. Answers options text.now made.0 made.1.items) }
    ensures fault { IfErr result (λ e. IsCauseOf e text.now) }
{
    match watcher.try_borrow_mut() {
        Ok(mut watcher) => solve_text(alloc, text, options, &mut *watcher),
        Err(_) => solve_text(alloc, text, options, &mut Silent),
    }
}
