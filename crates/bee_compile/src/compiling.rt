//! From a typed model to clauses.

ghost use Rattle.std.specs.Prelude.{◌↔◌, ◌+◌, ◌*◌, ◌≤◌, ℤ, List, IfOk, IfErr};
ghost use Rattle.model_meaning.specs.WellTyped.{WellTyped};
ghost use Rattle.model_meaning.specs.Limits.{InLimits};
ghost use Rattle.model_meaning.specs.Solutions.{IsSolution};
ghost use Rattle.model_weight.specs.Weight.{weight_of};
ghost use Rattle.model_lower.specs.Weighed.{most_weight};
ghost use Rattle.model_lower.specs.Faults.{IsFaultOf};
ghost use Rattle.bee_compile.specs.Compiled.{IsCompiled, IsGiven, questions_of};
ghost use Rattle.bee_compile.specs.Fits.{CompiledFits};

use crate::compiled::Compiled;
use fixpoint_queue::Oracle;
use model_lower::{LowerFault, Lowered, LoweredModel, lower_owned};
use model_meaning::Model;
use name_map::trim_map;
use rule_base::Steps;
use state_compile::compile_state;
use std::alloc::Global;
use std::sync::ledger::Ledger;
use step_kernel::State;

/// The clauses and the map of names of a model: it is lowered to cores; equations are added to them until none is told;
/// compound cores are split, the least one each time, with equations after each split; and each core gives its clauses,
/// the least id first. It stops where a contradiction is found. Each statement is let go when it is lowered, each core
/// when it is split or encoded.
///
/// It fails with the model's weight where that is above 67,108,864, and for want of memory.
pub fn compile<F: Oracle<L>, L: Ledger>(
    alloc: Global,
    model: Model,
    oracle: F,
    steps: &mut Steps<L>,
) -> Result<Compiled, LowerFault>
    requires typed { WellTyped model }
    requires limits { InLimits model }
    ensures light { IfOk result (λ c. weight_of model ≤ most_weight) }
    ensures compiled { IfOk result (λ c. IsCompiled F.told model c) }
    ensures heavy { IfErr result (λ e. IsFaultOf e model) }

    // The satisfying valuations give exactly the solutions.
    ensures solutions { IfOk result (λ c. (a : List ℤ) → IsSolution model a ↔ IsGiven c a) }
    ensures fits { IfOk result CompiledFits }

    // The counter rises by three at most for each query that may be made.
    ensures asked { IfOk result (λ c. steps.new ≤ steps.old + 3 * questions_of model c) }
{
    let LoweredModel { lowered, decls } = lower_owned(alloc, model)?;
    let Lowered { vars, map, cores } = lowered;
    let state = State::start(alloc, vars, cores.into_vec())?;
    let compilation = compile_state(alloc, state, oracle, steps)?;
    let cnf = compilation.state.cnf()?;
    let map = trim_map(alloc, &map, compilation.state.store().view())?;
    Ok(Compiled {
        cnf,
        decls,
        map,
        cores: compilation.state.ids(),
        ledger: compilation.ledger,
    })
}
