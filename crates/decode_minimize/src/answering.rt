//! The answer to a model.

ghost use Rattle.std.specs.Prelude.{◌≡◌, ◌+◌, ◌<◌, ◌≤◌, ◌^◌, IfOk, IfErr, length};
ghost use Rattle.model_meaning.specs.WellTyped.{WellTyped};
ghost use Rattle.model_meaning.specs.Limits.{InLimits};
ghost use Rattle.model_weight.specs.Weight.{weight_of};
ghost use Rattle.model_lower.specs.Weighed.{most_weight};
ghost use Rattle.model_lower.specs.Faults.{IsFaultOf};
ghost use Rattle.decode_minimize.specs.Solved.{IsProblem, IsSolvedFor};
ghost use Rattle.decode_minimize.specs.Answers.{IsBudget, IsAnswer};
ghost use Rattle.step_kernel.specs.Kernel.{Kernel, started};
ghost use Rattle.step_kernel.specs.CnfOf.{cnf_of};
ghost use Rattle.state_compile.specs.Compilation.{IsCompilation};
ghost use Rattle.answer_document.specs.Valid.{start_of};
ghost use Rattle.decode_minimize.specs.Heard.{AreHeard, AreDecodedHeard, IsHeard};
ghost use Rattle.decode_minimize.specs.Answering.{IsReady, IsAnswerOf, problem_at, size_of};

use crate::solved::{Names, Solved};
use crate::solving::{refuted, solve};
use crate::watching::SolutionWatcher;
use answer_document::Document;
use bee_list::Sequence;
use fixpoint_queue::Oracle;
use model_lower::{LowerFault, Lowered, LoweredModel, lower, lower_owned};
use model_meaning::{Decl, Goal, Model};
use rule_base::Steps;
use search_options::SearchOptions;
use search_watcher::Silent;
use state_compile::compile_state;
use std::alloc::{AllocError, Global};
use std::sync::ledger::Ledger;
use step_kernel::State;

/// How large a CNF is.
#[derive(Clone, Copy)]
pub struct CnfSize {
    /// The number of its variables.
    pub variables: u32,
    /// The number of its clauses.
    pub clauses: usize,
}

/// An answer to a model that was used up, and the model's declarations.
#[derive(Drop)]
pub struct AnsweredModel {
    /// The answer.
    pub document: Document,
    /// The size of the CNF at the end of the compilation.
    pub size: CnfSize,
    /// The declared names, as the model has them.
    pub decls: Sequence<Decl>,
}

/// A model that is used up, and the value that is wished for each of its declared names, where one is.
#[derive(Drop)]
pub struct WishedModel {
    /// The model.
    pub model: Model,
    /// A value of each name, in the order of declarations, or none. It may be shorter than these.
    pub wish: Vec<Option<i64>>,
}

/// What the clauses of a state are solved to, and their size.
#[derive(Drop)]
struct SolvedState {
    solved: Solved,
    size: CnfSize,
}

/// A document, and the size of the CNF that it is derived from.
#[derive(Drop)]
struct SizedDocument {
    document: Document,
    size: CnfSize,
}

/// A model that is lowered, with its names, what is sought of them, and what is wished for.
#[derive(Drop)]
struct Posed<'a> {
    lowered: Lowered,
    decls: &'a [Decl],
    goal: Goal,
    wish: &'a [Option<i64>],
}

/// Solves the clauses of the last state of a compilation. At bottom there is no solution, and nothing is to be derived:
/// the CNF is the empty clause alone.
fn solve_state<W: SolutionWatcher>(
    state: &State,
    names: &Names<'_>,
    options: SearchOptions,
    watcher: &mut W,
) -> Result<SolvedState, AllocError>
    requires view { names.now.view.now ≡ state.now.view }
    requires problem { IsProblem (problem_at names.now.map.now.entries state.now) }
    requires heard { IsHeard W.heard (cnf_of state.now) names.now }
    ensures solved { IfOk result
        (λ s. IsSolvedFor (problem_at names.now.map.now.entries state.now) options names.now.goal s.solved) }
    ensures size { IfOk result (λ s. s.size ≡ size_of (cnf_of state.now)) }
{
    if state.bottom() {
        return Ok(SolvedState {
            solved: refuted(Sequence::from_vec(Vec::new(names.alloc))),
            size: CnfSize {
                variables: state.vars(),
                clauses: 1,
            },
        });
    }
    let cnf = state.cnf()?;
    let size = CnfSize {
        variables: cnf.vars,
        clauses: cnf.clauses.len(),
    };
    let solved = solve(cnf, names, names.goal, options, watcher)?;
    Ok(SolvedState { solved, size })
}

/// The answer to a model that is lowered.
fn answer_lowered<F: Oracle<L>, L: Ledger, W: SolutionWatcher>(
    alloc: Global,
    posed: Posed<'_>,
    options: SearchOptions,
    oracle: F,
    steps: &mut Steps<L>,
    watcher: &mut W,
) -> Result<SizedDocument, AllocError>
    requires ready { IsReady posed.lowered }
    requires budget { IsBudget options.budget }
    requires heard { AreDecodedHeard W.heard posed.decls.now posed.goal posed.lowered }
    ensures answer { IfOk result
        (λ a. IsAnswerOf F.told posed.entry.lowered posed.entry.goal options a.document steps.old steps.new) }
    ensures size { IfOk result (λ a. (last : Kernel)
        → IsCompilation F.told (started posed.entry.lowered.vars posed.entry.lowered.cores) a.document.ledger last
        → a.size ≡ size_of (cnf_of last)) }
{
    let Posed {
        lowered,
        decls,
        goal,
        wish,
    } = posed;
    let Lowered { vars, map, cores } = lowered;
    let state = State::start(alloc, vars, cores.into_vec())?;
    let compilation = compile_state(alloc, state, oracle, steps)?;
    // Read for the proof alone, which knows the state's invariant from here on.
    let _ids = compilation.state.ids();
    let names = Names {
        alloc,
        decls,
        goal,
        map: &map,
        view: compilation.state.view(),
        wish,
    };
    let made = solve_state(&compilation.state, &names, options, watcher)?;
    Ok(SizedDocument {
        document: Document {
            verdict: made.solved.verdict,
            assignment: made.solved.assignment,
            ledger: compilation.ledger,
            proof: made.solved.proof,
            second: made.solved.second,
        },
        size: made.size,
    })
}

/// The answer to a model: whether it has a solution, or which is a best one, with a certificate. The model is compiled
/// as by `compile`, and the clauses are solved. An objective is sought in rounds, each of which asks for a better value
/// than the best one so far, by the same solver; a second objective by a new solver, over the clauses and that the
/// first one is fixed, with what the first one left of the budget. No round is made where the store already excludes a
/// better value.
///
/// Each solution of an objective's rounds is told, when it is found, to a watcher that listens; and so is how many
/// clauses were learned. Where any solution serves, it is the answer itself, and isn't told before.
///
/// It fails with the model's weight where that is above 67,108,864, and for want of memory.
pub fn answer_watched<F: Oracle<L>, L: Ledger, W: SolutionWatcher>(
    alloc: Global,
    model: &Model,
    options: SearchOptions,
    oracle: F,
    steps: &mut Steps<L>,
    watcher: &mut W,
) -> Result<Document, LowerFault>
    requires typed { WellTyped model.now }
    requires limits { InLimits model.now }
    requires budget { IsBudget options.budget }
    requires heard { AreHeard W.heard model.now }
    ensures light { IfOk result (λ d. weight_of model.now ≤ most_weight) }
    ensures answer { IfOk result (λ d. IsAnswer F.told model.now options d steps.old steps.new) }
    ensures heavy { IfErr result (λ e. IsFaultOf e model.now) }
{
    let lowered = lower(alloc, model)?;
    let posed = Posed {
        lowered,
        decls: model.decls.as_slice(),
        goal: model.goal,
        wish: &[],
    };
    let answered = answer_lowered(alloc, posed, options, oracle, steps, watcher)?;
    Ok(answered.document)
}

/// The answer to a model, as by `answer_watched`, of which nobody is told.
pub fn answer<F: Oracle<L>, L: Ledger>(
    alloc: Global,
    model: &Model,
    options: SearchOptions,
    oracle: F,
    steps: &mut Steps<L>,
) -> Result<Document, LowerFault>
    requires typed { WellTyped model.now }
    requires limits { InLimits model.now }
    requires budget { IsBudget options.budget }
    ensures light { IfOk result (λ d. weight_of model.now ≤ most_weight) }
    ensures answer { IfOk result (λ d. IsAnswer F.told model.now options d steps.old steps.new) }
    ensures heavy { IfErr result (λ e. IsFaultOf e model.now) }
{
    answer_watched(alloc, model, options, oracle, steps, &mut Silent)
}

/// The answer to a model that is used up: each statement is let go as soon as it is lowered, and the declarations are
/// given back. Where any solution is sought, the values that are wished for are decided first, so that one with these
/// is found where there is one and the search doesn't take long; nothing is promised of that. Else it is as
/// `answer_watched`.
pub fn answer_wished<F: Oracle<L>, L: Ledger, W: SolutionWatcher>(
    alloc: Global,
    asked: WishedModel,
    options: SearchOptions,
    oracle: F,
    steps: &mut Steps<L>,
    watcher: &mut W,
) -> Result<AnsweredModel, LowerFault>
    requires typed { WellTyped asked.model }
    requires limits { InLimits asked.model }
    requires budget { IsBudget options.budget }
    requires heard { AreHeard W.heard asked.model }
    ensures light { IfOk result (λ a. weight_of asked.model ≤ most_weight) }
    ensures answer { IfOk result (λ a. IsAnswer F.told asked.model options a.document steps.old steps.new) }
    ensures decls { IfOk result (λ a. a.decls ≡ asked.model.decls) }

    // The size is that of the CNF of the state to which the ledger leads.
    ensures size { IfOk result (λ a. (last : Kernel)
        → IsCompilation F.told (start_of asked.model) a.document.ledger last → a.size ≡ size_of (cnf_of last)) }
    ensures heavy { IfErr result (λ e. IsFaultOf e asked.model) }
{
    let WishedModel { model, wish } = asked;
    let goal = model.goal;
    let held = lower_owned(alloc, model)?;
    let LoweredModel { lowered, decls } = held;
    let posed = Posed {
        lowered,
        decls: decls.as_slice(),
        goal,
        wish: wish.as_slice(),
    };
    let answered = answer_lowered(alloc, posed, options, oracle, steps, watcher)?;
    Ok(AnsweredModel {
        document: answered.document,
        size: answered.size,
        decls,
    })
}

/// The answer to a model that is used up, as by `answer_wished`, where nothing is wished for.
pub fn answer_owned_watched<F: Oracle<L>, L: Ledger, W: SolutionWatcher>(
    alloc: Global,
    model: Model,
    options: SearchOptions,
    oracle: F,
    steps: &mut Steps<L>,
    watcher: &mut W,
) -> Result<AnsweredModel, LowerFault>
    requires typed { WellTyped model }
    requires limits { InLimits model }
    requires budget { IsBudget options.budget }
    requires heard { AreHeard W.heard model }
    ensures light { IfOk result (λ a. weight_of model ≤ most_weight) }
    ensures answer { IfOk result (λ a. IsAnswer F.told model options a.document steps.old steps.new) }
    ensures decls { IfOk result (λ a. a.decls ≡ model.decls) }

    // The size is that of the CNF of the state to which the ledger leads.
    ensures size { IfOk result (λ a. (last : Kernel) → IsCompilation F.told (start_of model) a.document.ledger last
        → a.size ≡ size_of (cnf_of last)) }
    ensures heavy { IfErr result (λ e. IsFaultOf e model) }
{
    let asked = WishedModel {
        model,
        wish: Vec::new(alloc),
    };
    answer_wished(alloc, asked, options, oracle, steps, watcher)
}
