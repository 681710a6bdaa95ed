//! From a model and a text of values that are wished for to the text of the answer.

ghost use Rattle.std.specs.Prelude.{List, ℕ, ◌≤◌, length, IfOk, IfErr};
ghost use Rattle.model_texts.specs.ModelTexts.{longest_text, IsCauseOf};
ghost use Rattle.model_texts.specs.HeldModels.{HoldsModel};
ghost use Rattle.decode_minimize.specs.Answers.{IsBudget};
ghost use Rattle.decode_minimize.specs.Heard.{HearsAll};
ghost use Rattle.solve_mode.specs.Solved.{IsAnswerText};
ghost use Rattle.resume_mode.specs.Resumed.{IsResuming};

use crate::fault::RefusedWish;
use decode_minimize::{SolutionWatcher, WishedModel};
use model_lower::{LowerFault, weigh};
use model_meaning::Model;
use model_texts::{ModelTextFault, lower_fault, model_of};
use search_options::SearchOptions;
use search_watcher::Silent;
use solve_mode::write_wished;
use std::alloc::{AllocError, Global};
use std::cell::{Cell, RefCell};
use text_modes::{Outcome, refusal};
use wish_text::{WishRead, read_wish};

/// The model that a text within the limit says, where it is not too heavy.
pub(crate) fn light_model(alloc: Global, text: &[u8]) -> Result<Model, ModelTextFault>
    requires { length text.now ≤ longest_text }
    ensures model { IfOk result (HoldsModel text.now) }
    ensures fault { IfErr result (λ e. IsCauseOf e text.now) }
{
    let model = model_of(alloc, text)?;
    match weigh(alloc, &model) {
        Ok(()) => Ok(model),
        Err(fault) => Err(lower_fault(fault)),
    }
}

/// The text of the answer to a model that is not too heavy, so that memory alone can be wanting.
fn answer_text<W: SolutionWatcher>(
    alloc: Global,
    asked: WishedModel,
    options: SearchOptions,
    watcher: &mut W,
) -> Result<(Outcome, Vec<u8>), AllocError>
    requires held { (text : List ℕ) × HoldsModel text asked.model }
    requires budget { IsBudget options.budget }
    requires heard { HearsAll W.heard }
    ensures { IfOk result (λ made. IsAnswerText options asked.model made.0 made.1.items) }
{
    match write_wished(alloc, asked, options, watcher) {
        Ok(written) => Ok(written),
        Err(LowerFault::TooHeavy(_) | LowerFault::Memory) => Err(AllocError),
    }
}

/// What is written for a model and what is wished for: the text of the answer, or the line that tells which line fails
/// first; what stands against that line is put into the cell.
fn resumed_text<W: SolutionWatcher>(
    alloc: Global,
    model: Model,
    second: &[u8],
    options: SearchOptions,
    watcher: &mut W,
    noted: &Cell<Option<RefusedWish>>,
) -> Result<(Outcome, Vec<u8>), AllocError>
    requires held { (text : List ℕ) × HoldsModel text model }
    requires budget { IsBudget options.budget }
    requires heard { HearsAll W.heard }
    ensures { IfOk result (λ made. IsResuming options model second.now made.0 made.1.items) }
{
    match read_wish(alloc, model.decls.as_slice(), second)? {
        WishRead::Values(wish) => {
            answer_text(alloc, WishedModel { model, wish }, options, watcher)
        }
        WishRead::Refused(line) => {
            noted.set(Some(RefusedWish));
            let text = refusal(alloc, line)?;
            Ok((Outcome::Refused(line), text))
        }
    }
}

/// The same, of which a watcher in a cell is told. Where the cell is in use, which it isn't, nobody is.
pub(crate) fn told_text<W: SolutionWatcher>(
    alloc: Global,
    model: Model,
    second: &[u8],
    options: SearchOptions,
    watcher: &RefCell<W>,
    noted: &Cell<Option<RefusedWish>>,
) -> Result<(Outcome, Vec<u8>), AllocError>
    requires held { (text : List ℕ) × HoldsModel text model }
    requires budget { IsBudget options.budget }
    requires heard { HearsAll W.heard }
    ensures { IfOk result (λ made. IsResuming options model second.now made.0 made.1.items) }
{
    match watcher.try_borrow_mut() {
        Ok(mut watcher) => resumed_text(alloc, model, second, options, &mut *watcher, noted),
        Err(_) => resumed_text(alloc, model, second, options, &mut Silent, noted),
    }
}
