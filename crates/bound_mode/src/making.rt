//! From the text of a model to its compiled text, and that its objective is better than a number.

ghost use Rattle.std.specs.Prelude.{◌≡◌, ◌≤◌, length, IfOk, IfErr, MatchOption};
ghost use Rattle.model_meaning.specs.WellTyped.{WellTyped};
ghost use Rattle.model_meaning.specs.Limits.{InLimits};
ghost use Rattle.model_weight.specs.Weight.{weight_of};
ghost use Rattle.model_lower.specs.Weighed.{most_weight};
ghost use Rattle.model_lower.specs.Faults.{IsFaultOf};
ghost use Rattle.bee_compile.specs.Fits.{CompiledFits};
ghost use Rattle.model_texts.specs.ModelTexts.{longest_text, IsCauseOf};
ghost use Rattle.bound_mode.specs.Bounded.{bounded_by, IsBoundText, Bounds, HasNone};

use answer_document::{has_objective, with_atom};
use bee_compile::Compiled;
use compile_mode::{compile_model, write_compilation};
use model_lower::{LowerFault, weigh};
use model_meaning::{Goal, Model};
use model_texts::{ModelTextFault, lower_fault, model_of};
use objective_bound::better_than;
use order_ints::Cnf;
use std::alloc::{AllocError, Global};

/// What a model is compiled to, and at the end of its clauses that its objective is better than a number.
fn bounded(
    alloc: Global,
    compiled: Compiled,
    goal: Goal,
    number: i64,
) -> Result<Compiled, AllocError>
    requires { CompiledFits compiled }
    ensures { IfOk result (λ c. c ≡ bounded_by goal number compiled) }
{
    let better = better_than(goal, compiled.map.entries.as_slice(), number);
    let Compiled {
        cnf,
        decls,
        map,
        cores,
        ledger,
    } = compiled;
    let Cnf { vars, clauses } = cnf;
    let clauses = with_atom(alloc, clauses, better)?;
    Ok(Compiled {
        cnf: Cnf { vars, clauses },
        decls,
        map,
        cores,
        ledger,
    })
}

/// The compiled text of a model, and that its objective is better than a number.
fn write_bound(alloc: Global, model: Model, number: i64) -> Result<Vec<u8>, LowerFault>
    requires typed { WellTyped model }
    requires limits { InLimits model }
    ensures light { IfOk result (λ text. weight_of model ≤ most_weight) }
    ensures text { IfOk result (λ text. IsBoundText number model text.items) }
    ensures heavy { IfErr result (λ e. IsFaultOf e model) }
{
    let goal = model.goal;
    let compiled = compile_model(alloc, model)?;
    let whole = bounded(alloc, compiled, goal, number)?;
    Ok(write_compilation(alloc, whole)?)
}

/// The same of the model that a text says; none where it has no objective, and then it is weighed alone.
pub(crate) fn bound_text(
    alloc: Global,
    text: &[u8],
    number: i64,
) -> Result<Option<Vec<u8>>, ModelTextFault>
    requires { length text.now ≤ longest_text }
    ensures bounded { IfOk result
        (λ made. MatchOption made (HasNone text.now) (λ written. Bounds number text.now written.items)) }
    ensures fault { IfErr result (λ e. IsCauseOf e text.now) }
{
    let model = model_of(alloc, text)?;
    if !has_objective(model.goal) {
        return match weigh(alloc, &model) {
            Ok(()) => Ok(None),
            Err(fault) => Err(lower_fault(fault)),
        };
    }
    match write_bound(alloc, model, number) {
        Ok(written) => Ok(Some(written)),
        Err(fault) => Err(lower_fault(fault)),
    }
}
