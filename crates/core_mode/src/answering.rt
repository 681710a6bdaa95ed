//! What is extracted from a model by all rules, and what its verdict says of the run.

ghost use Rattle.std.specs.Prelude.{◌≡◌, ◌<◌, ◌≤◌, IfOk, IfErr};
ghost use Rattle.model_meaning.specs.WellTyped.{WellTyped};
ghost use Rattle.model_meaning.specs.Limits.{InLimits};
ghost use Rattle.model_lower.specs.Weighed.{most_weight};
ghost use Rattle.model_parts.specs.CoreWeight.{core_weight};
ghost use Rattle.decode_minimize.specs.Answers.{IsBudget};
ghost use Rattle.bee_compile.specs.Compiled.{IsInstance};
ghost use Rattle.core_extract.specs.Extracted.{IsExtracted, IsFaultOf};
ghost use Rattle.core_mode.specs.Conflicts.{outcome_of};

use conflict_text::CoreVerdict;
use core_extract::{ConflictWatcher, ExtractedConflict, extract};
use model_lower::LowerFault;
use model_meaning::Model;
use rule_base::Steps;
use rule_oracle::TableP;
use search_options::SearchOptions;
use std::alloc::Global;
use std::cell::RefCell;
use std::marker::Brand;
use std::sync::ledger::{Blank, Ledger};
use text_modes::Outcome;

/// What a verdict says of the run: a search that was given up tells its budget.
pub(crate) fn outcome_of(verdict: CoreVerdict) -> Outcome
    ensures { result ≡ outcome_of verdict }
{
    match verdict {
        CoreVerdict::Satisfiable | CoreVerdict::Core(_) => Outcome::Done,
        CoreVerdict::Unknown(count) => Outcome::Unknown(count),
    }
}

/// What is extracted from a model, by all rules, with a counter of its own.
fn extract_with<L: Ledger, W: ConflictWatcher>(
    alloc: Global,
    blank: Blank,
    model: Model,
    options: SearchOptions,
    watcher: &RefCell<W>,
) -> Result<ExtractedConflict, LowerFault>
    requires typed { WellTyped model }
    requires limits { InLimits model }
    requires budget { IsBudget options.budget }
    requires name { blank.name ≡ L.name }
    requires parts { blank.parts ≡ L.parts }
    requires some { 0 < L.parts }
    ensures light { IfOk result (λ e. core_weight model ≤ most_weight) }
    ensures extracted { IfOk result (λ e. IsExtracted IsInstance model options e.document) }
    ensures decls { IfOk result (λ e. e.decls ≡ model.decls) }
    ensures heavy { IfErr result (λ e. IsFaultOf e model) }
{
    let mut steps = Steps::<L>::open(blank);
    extract(alloc, model, options, TableP, &mut steps, watcher)
}

/// What is extracted from a model, by all rules.
pub(crate) fn extract_model<W: ConflictWatcher>(
    alloc: Global,
    model: Model,
    options: SearchOptions,
    watcher: &RefCell<W>,
) -> Result<ExtractedConflict, LowerFault>
    requires typed { WellTyped model }
    requires limits { InLimits model }
    requires budget { IsBudget options.budget }
    ensures light { IfOk result (λ e. core_weight model ≤ most_weight) }
    ensures extracted { IfOk result (λ e. IsExtracted IsInstance model options e.document) }
    ensures decls { IfOk result (λ e. e.decls ≡ model.decls) }
    ensures heavy { IfErr result (λ e. IsFaultOf e model) }
{
    extract_with::<Brand, W>(alloc, Blank::new(1), model, options, watcher)
}
