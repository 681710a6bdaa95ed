//! The answer to a model by all rules, and what its verdict says of the run.

ghost use Rattle.std.specs.Prelude.{◌≡◌, ◌<◌, ◌≤◌, ℕ, IfOk, IfErr};
ghost use Rattle.model_meaning.specs.WellTyped.{WellTyped};
ghost use Rattle.model_meaning.specs.Limits.{InLimits};
ghost use Rattle.model_weight.specs.Weight.{weight_of};
ghost use Rattle.model_lower.specs.Weighed.{most_weight};
ghost use Rattle.model_lower.specs.Faults.{IsFaultOf};
ghost use Rattle.step_kernel.specs.Kernel.{Kernel};
ghost use Rattle.step_kernel.specs.CnfOf.{cnf_of};
ghost use Rattle.state_compile.specs.Compilation.{IsCompilation};
ghost use Rattle.answer_document.specs.Valid.{start_of};
ghost use Rattle.decode_minimize.specs.Answers.{IsBudget, IsAnswer};
ghost use Rattle.decode_minimize.specs.Answering.{size_of};
ghost use Rattle.decode_minimize.specs.Heard.{AreHeard};
ghost use Rattle.bee_compile.specs.Compiled.{IsInstance};
ghost use Rattle.solve_mode.specs.Solved.{outcome_of};

use answer_document::Verdict;
use decode_minimize::{AnsweredModel, SolutionWatcher, WishedModel, answer_wished};
use model_lower::LowerFault;
use model_meaning::Model;
use rule_base::Steps;
use rule_oracle::TableP;
use search_options::SearchOptions;
use std::alloc::Global;
use std::marker::Brand;
use std::sync::ledger::{Blank, Ledger};
use text_modes::Outcome;

/// What a verdict says of the run: a search that was given up tells its budget.
pub fn outcome_of(verdict: Verdict) -> Outcome
    ensures { result ≡ outcome_of verdict }
{
    match verdict {
        Verdict::Satisfiable | Verdict::Unsatisfiable | Verdict::Optimum(_) => Outcome::Done,
        Verdict::Unknown(count, _) => Outcome::Unknown(count),
    }
}

/// The answer to a model, by all rules, with a counter of its own.
fn answer_with<L: Ledger, W: SolutionWatcher>(
    alloc: Global,
    blank: Blank,
    asked: WishedModel,
    options: SearchOptions,
    watcher: &mut W,
) -> Result<AnsweredModel, LowerFault>
    requires typed { WellTyped asked.model }
    requires limits { InLimits asked.model }
    requires budget { IsBudget options.budget }
    requires heard { AreHeard W.heard asked.model }
    requires name { blank.name ≡ L.name }
    requires parts { blank.parts ≡ L.parts }
    requires some { 0 < L.parts }
    ensures light { IfOk result (λ a. weight_of asked.model ≤ most_weight) }
    ensures answer { IfOk result (λ a. (before after : ℕ)
        × IsAnswer IsInstance asked.model options a.document before after) }
    ensures decls { IfOk result (λ a. a.decls ≡ asked.model.decls) }
    ensures size { IfOk result (λ a. (last : Kernel)
        → IsCompilation IsInstance (start_of asked.model) a.document.ledger last
        → a.size ≡ size_of (cnf_of last)) }
    ensures heavy { IfErr result (λ e. IsFaultOf e asked.model) }
{
    let mut steps = Steps::<L>::open(blank);
    answer_wished(alloc, asked, options, TableP, &mut steps, watcher)
}

/// The answer to a model, by all rules, where values are wished for. Each statement is let go when it is lowered, and
/// each better solution is told.
pub(crate) fn answer_asked<W: SolutionWatcher>(
    alloc: Global,
    asked: WishedModel,
    options: SearchOptions,
    watcher: &mut W,
) -> Result<AnsweredModel, LowerFault>
    requires typed { WellTyped asked.model }
    requires limits { InLimits asked.model }
    requires budget { IsBudget options.budget }
    requires heard { AreHeard W.heard asked.model }
    ensures light { IfOk result (λ a. weight_of asked.model ≤ most_weight) }
    ensures answer { IfOk result (λ a. (before after : ℕ)
        × IsAnswer IsInstance asked.model options a.document before after) }
    ensures decls { IfOk result (λ a. a.decls ≡ asked.model.decls) }

    // The size is that of the CNF of the state to which the ledger leads.
    ensures size { IfOk result (λ a. (last : Kernel)
        → IsCompilation IsInstance (start_of asked.model) a.document.ledger last
        → a.size ≡ size_of (cnf_of last)) }
    ensures heavy { IfErr result (λ e. IsFaultOf e asked.model) }
{
    answer_with::<Brand, W>(alloc, Blank::new(1), asked, options, watcher)
}

/// The answer to a model, by all rules, where nothing is wished for. Each statement is let go when it is lowered, and
/// each better solution is told.
pub fn answer_model<W: SolutionWatcher>(
    alloc: Global,
    model: Model,
    options: SearchOptions,
    watcher: &mut W,
) -> Result<AnsweredModel, LowerFault>
    requires typed { WellTyped model }
    requires limits { InLimits model }
    requires budget { IsBudget options.budget }
    requires heard { AreHeard W.heard model }
    ensures light { IfOk result (λ a. weight_of model ≤ most_weight) }
    ensures answer { IfOk result (λ a. (before after : ℕ)
        × IsAnswer IsInstance model options a.document before after) }
    ensures decls { IfOk result (λ a. a.decls ≡ model.decls) }

    // The size is that of the CNF of the state to which the ledger leads.
    ensures size { IfOk result (λ a. (last : Kernel)
        → IsCompilation IsInstance (start_of model) a.document.ledger last
        → a.size ≡ size_of (cnf_of last)) }
    ensures heavy { IfErr result (λ e. IsFaultOf e model) }
{
    let asked = WishedModel {
        model,
        wish: Vec::new(alloc),
    };
    answer_asked(alloc, asked, options, watcher)
}
