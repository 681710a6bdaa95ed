//! From the text of a pseudo-Boolean file to the text of its model, and to that of the answer to it.

ghost use Rattle.std.specs.Prelude.{◌≡◌, ◌≤◌, length, IfOk, IfErr};
ghost use Rattle.model_texts.specs.ModelTexts.{longest_text};
ghost use Rattle.opb_front.specs.Grammar.{IsOpbText};
ghost use Rattle.opb_mode.specs.Files.{HoldsFile, IsFileCause, IsOpbCause, file_fault_of};
ghost use Rattle.opb_mode.specs.OpbModelMode.{IsModelText};
ghost use Rattle.decode_minimize.specs.Answers.{IsBudget};
ghost use Rattle.decode_minimize.specs.Heard.{HearsAll};
ghost use Rattle.opb_mode.specs.OpbMode.{AnswersFile};

use decode_minimize::SolutionWatcher;
use model_texts::{LONGEST_TEXT, ModelFault, ModelTextFault, lower_fault};
use opb_front::{Opb, OpbFault, read_opb};
use opb_model::{model_text, opb_model};
use search_options::SearchOptions;
use search_watcher::Silent;
use solve_mode::write_answer;
use std::alloc::{AllocError, Global};
use std::cell::RefCell;
use text_modes::Outcome;

/// What a fault of a file makes of a text.
fn file_fault(fault: OpbFault) -> ModelTextFault
    ensures { result ≡ file_fault_of fault }
{
    match fault {
        OpbFault::Syntax(line) => ModelTextFault::Model(ModelFault::Syntax(line)),
        OpbFault::Number(line) => ModelTextFault::Model(ModelFault::Number(line)),
        OpbFault::Memory => ModelTextFault::Memory,
    }
}

#[tactic(auto, using(crate::proofs::Shapes::file_caused))]
/// What the text of a file says.
fn file_of(alloc: Global, text: &[u8]) -> Result<Opb, ModelTextFault>
    ensures says { IfOk result (IsOpbText text.now) }
    ensures fault { IfErr result (IsFileCause text.now) }
{
    match read_opb(alloc, text) {
        Ok(opb) => Ok(opb),
        Err(fault) => Err(file_fault(fault)),
    }
}

#[tactic(auto, using(crate::proofs::Shapes::few, crate::proofs::Shapes::written_text, crate::proofs::Shapes::too_long))]
/// The text of the model of the file that a text says.
pub(crate) fn file_model_text(alloc: Global, text: &[u8]) -> Result<Vec<u8>, ModelTextFault>
    requires { length text.now ≤ longest_text }
    ensures text { IfOk result (λ written. IsModelText text.now written.items) }
    ensures fault { IfErr result (IsFileCause text.now) }
{
    let opb = file_of(alloc, text)?;
    match model_text(alloc, &opb, LONGEST_TEXT) {
        Ok(Some(written)) => Ok(written),
        Ok(None) => Err(ModelTextFault::Model(ModelFault::TooLong)),
        Err(AllocError) => Err(ModelTextFault::Memory),
    }
}

#[tactic(auto, using(crate::proofs::Shapes::few, crate::proofs::Shapes::held, crate::proofs::Shapes::too_long))]
/// What a text says, where the text of its model is within the limit.
fn held_file(alloc: Global, text: &[u8]) -> Result<Opb, ModelTextFault>
    requires { length text.now ≤ longest_text }
    ensures file { IfOk result (HoldsFile text.now) }
    ensures fault { IfErr result (IsFileCause text.now) }
{
    let opb = file_of(alloc, text)?;
    match model_text(alloc, &opb, LONGEST_TEXT) {
        Ok(Some(_)) => Ok(opb),
        Ok(None) => Err(ModelTextFault::Model(ModelFault::TooLong)),
        Err(AllocError) => Err(ModelTextFault::Memory),
    }
}

#[tactic(auto, using(crate::proofs::Shapes::makings))]
/// The text of the answer to the model of the file that a text says. What was read is let go once the model is made.
fn file_answer_text<W: SolutionWatcher>(
    alloc: Global,
    text: &[u8],
    options: SearchOptions,
    watcher: &mut W,
) -> Result<(Outcome, Vec<u8>), ModelTextFault>
    requires short { length text.now ≤ longest_text }
    requires budget { IsBudget options.budget }
    requires heard { HearsAll W.heard }
    ensures solved { IfOk result (λ made. AnswersFile options text.now made.0 made.1.items) }
    ensures fault { IfErr result (IsOpbCause text.now) }
{
    let opb = held_file(alloc, text)?;
    let model = match opb_model(alloc, &opb) {
        Ok(model) => model,
        Err(AllocError) => return Err(ModelTextFault::Memory),
    };
    drop(opb);
    match write_answer(alloc, model, options, watcher) {
        Ok(written) => Ok(written),
        Err(fault) => Err(lower_fault(fault)),
    }
}

/// The same, of which a watcher in a cell is told. Where the cell is in use, which it isn't, nobody is.
pub(crate) fn told_text<W: SolutionWatcher>(
    alloc: Global,
    text: &[u8],
    options: SearchOptions,
    watcher: &RefCell<W>,
) -> Result<(Outcome, Vec<u8>), ModelTextFault>
    requires short { length text.now ≤ longest_text }
    requires budget { IsBudget options.budget }
    requires heard { HearsAll W.heard }
    ensures solved { IfOk result (λ made. AnswersFile options text.now made.0 made.1.items) }
    ensures fault { IfErr result (IsOpbCause text.now) }
{
    match watcher.try_borrow_mut() {
        Ok(mut watcher) => file_answer_text(alloc, text, options, &mut *watcher),
        Err(_) => file_answer_text(alloc, text, options, &mut Silent),
    }
}
