//! From the text of a model to the text of its conflict.

ghost use Rattle.std.specs.Prelude.{◌≤◌, length, IfOk, IfErr};
ghost use Rattle.model_meaning.specs.WellTyped.{WellTyped};
ghost use Rattle.model_meaning.specs.Limits.{InLimits};
ghost use Rattle.model_lower.specs.Weighed.{most_weight};
ghost use Rattle.model_parts.specs.CoreWeight.{core_weight};
ghost use Rattle.model_texts.specs.ModelTexts.{longest_text};
ghost use Rattle.decode_minimize.specs.Answers.{IsBudget};
ghost use Rattle.core_extract.specs.Extracted.{IsFaultOf};
ghost use Rattle.conflict_text.specs.ConflictDocuments.{AreNumbers};
ghost use Rattle.conflict_models.specs.ConflictModels.{IsReasonOf};
ghost use Rattle.core_mode.specs.Conflicts.{IsConflictText, IsConflictHeld};

use crate::answering::{extract_model, outcome_of};
use conflict_models::reading_fault;
use conflict_text::write_core;
use core_extract::ConflictWatcher;
use model_lower::LowerFault;
use model_meaning::Model;
use model_texts::{ModelTextFault, lower_fault, model_of};
use search_options::SearchOptions;
use std::alloc::{AllocError, Global};
use std::cell::RefCell;
use text_modes::Outcome;

/// Each number has 64 bits, as is known of each that is read. It does nothing.
fn fit(numbers: &[u64])
    ensures { AreNumbers numbers.now }
{
    let mut left = numbers;
    while let Some((number, behind)) = left.split_first() {
        let _number = *number;
        left = behind;
    }
}

/// The text of what is extracted from a model, with what its verdict says of the run.
fn write_extracted<W: ConflictWatcher>(
    alloc: Global,
    model: Model,
    options: SearchOptions,
    watcher: &RefCell<W>,
) -> Result<(Outcome, Vec<u8>), LowerFault>
    requires typed { WellTyped model }
    requires limits { InLimits model }
    requires budget { IsBudget options.budget }
    ensures light { IfOk result (λ made. core_weight model ≤ most_weight) }
    ensures text { IfOk result (λ made. IsConflictText options model made.0 made.1.items) }
    ensures heavy { IfErr result (λ e. IsFaultOf e model) }
{
    let extracted = extract_model(alloc, model, options, watcher)?;
    let decls = extracted.decls.as_slice();
    let text = write_core(alloc, decls, &extracted.document)?;
    fit(extracted.document.statements.as_slice());
    Ok((outcome_of(extracted.document.verdict), text))
}

/// The text of what is extracted from the model that a text says.
pub(crate) fn conflict_of<W: ConflictWatcher>(
    alloc: Global,
    text: &[u8],
    options: SearchOptions,
    watcher: &RefCell<W>,
) -> Result<(Outcome, Vec<u8>), ModelTextFault>
    requires short { length text.now ≤ longest_text }
    requires budget { IsBudget options.budget }
    ensures held { IfOk result (λ made. IsConflictHeld options text.now made.0 made.1.items) }
    ensures fault { IfErr result (λ e. IsReasonOf e text.now) }
{
    let model = match model_of(alloc, text) {
        Ok(model) => model,
        Err(fault) => return Err(reading_fault(fault)),
    };
    match write_extracted(alloc, model, options, watcher) {
        Ok(written) => Ok(written),
        Err(fault) => Err(lower_fault(fault)),
    }
}
