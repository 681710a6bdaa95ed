//! The list of a model's solutions by all rules.

ghost use Rattle.std.specs.Prelude.{◌≡◌, ◌<◌, ◌≤◌, ℕ, IfOk, IfErr};
ghost use Rattle.model_meaning.specs.WellTyped.{WellTyped};
ghost use Rattle.model_meaning.specs.Limits.{InLimits};
ghost use Rattle.model_weight.specs.Weight.{weight_of};
ghost use Rattle.model_lower.specs.Weighed.{most_weight};
ghost use Rattle.model_lower.specs.Faults.{IsFaultOf};
ghost use Rattle.decode_minimize.specs.Answers.{IsBudget};
ghost use Rattle.bee_compile.specs.Compiled.{IsInstance};
ghost use Rattle.list_answer.specs.ListAnswer.{IsListOf};

use all_solutions::ListWatcher;
use list_answer::list_all;
use list_text::ListDoc;
use model_lower::LowerFault;
use model_meaning::Model;
use rule_base::Steps;
use rule_oracle::TableP;
use search_options::SearchOptions;
use std::alloc::Global;
use std::marker::Brand;
use std::sync::ledger::{Blank, Ledger};

/// The list of all solutions of a model, by all rules, with a counter of its own.
fn list_with<L: Ledger, W: ListWatcher>(
    alloc: Global,
    blank: Blank,
    model: &Model,
    options: SearchOptions,
    watcher: &mut W,
) -> Result<ListDoc, LowerFault>
    requires typed { WellTyped model.now }
    requires limits { InLimits model.now }
    requires budget { IsBudget options.budget }
    requires name { blank.name ≡ L.name }
    requires parts { blank.parts ≡ L.parts }
    requires some { 0 < L.parts }
    ensures light { IfOk result (λ d. weight_of model.now ≤ most_weight) }
    ensures list { IfOk result (λ d. (before after : ℕ) × IsListOf IsInstance model.now options d before after) }
    ensures heavy { IfErr result (λ e. IsFaultOf e model.now) }
{
    let mut steps = Steps::<L>::open(blank);
    list_all(alloc, model, options, TableP, &mut steps, watcher)
}

/// The list of all solutions of a model, by all rules.
pub(crate) fn list_model<W: ListWatcher>(
    alloc: Global,
    model: &Model,
    options: SearchOptions,
    watcher: &mut W,
) -> Result<ListDoc, LowerFault>
    requires typed { WellTyped model.now }
    requires limits { InLimits model.now }
    requires budget { IsBudget options.budget }
    ensures light { IfOk result (λ d. weight_of model.now ≤ most_weight) }
    ensures list { IfOk result (λ d. (before after : ℕ) × IsListOf IsInstance model.now options d before after) }
    ensures heavy { IfErr result (λ e. IsFaultOf e model.now) }
{
    list_with::<Brand, W>(alloc, Blank::new(1), model, options, watcher)
}
