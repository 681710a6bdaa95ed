//! The run of a pending core, and how far it was made.

ghost use Rattle.std.specs.Prelude.{◌≡◌, ◌↔◌, ◌+◌, ◌<◌, ℕ, true, IsTrue, IfOk, IfSome, length};
ghost use Rattle.std.specs.Prelude.{drop, false};
ghost use Rattle.core_forms.specs.declared.edges.Edge.{Edge};
ghost use Rattle.core_forms.specs.Place.{CoreBelow};
ghost use Rattle.core_forms.specs.WellFormed.{IsWellFormed};
ghost use Rattle.equation_runs.specs.Turns.{resolved_equation, IsMade, AreToldInTurn, EquationsBelow, is_stated};
ghost use Rattle.step_kernel.specs.Kernel.{Kernel, IsKernel};
ghost use Rattle.step_kernel.specs.Settled.{IsSettled, WasSettled};
ghost use Rattle.ledger_replay.specs.Due.{AreDue, IsRunAt, IsNext};

use core_forms::{Core, Equation};
use equation_runs::{run_at_edge, run_of};
use order_ints::{Atom, resolve};
use rule_base::Steps;
use std::alloc::{AllocError, Global};
use std::marker::Brand;
use std::sync::ledger::{Blank, Ledger};
use step_kernel::State;

/// Equations that a pending core tells one after another, with the id of the core and the number of those
/// that are behind.
#[derive(Drop)]
pub(crate) struct Run {
    pub(crate) id: u64,
    pub(crate) equations: Vec<Equation>,
    pub(crate) place: usize,
}

/// The equations that a core tells one after another, counted by a counter of their own.
fn equations_of<L: Ledger>(
    alloc: Global,
    blank: Blank,
    core: &Core,
) -> Result<Vec<Equation>, AllocError>
    requires name { blank.name ≡ L.name }
    requires parts { blank.parts ≡ L.parts }
    requires some { 0 < L.parts }
    requires formed { IsWellFormed core.now }
    ensures told { IfOk result (λ run. AreToldInTurn (λ c e. is_stated c e ≡ true) core.now run.items) }
    ensures below { (n : ℕ) → CoreBelow n core.now → IfOk result (λ run. EquationsBelow n run.items) }
{
    let mut steps = Steps::<L>::open(blank);
    run_of(alloc, core, &mut steps)
}

/// The equations of the pending core with an id whose edge is settled.
fn equations_at_edge<L: Ledger>(
    alloc: Global,
    blank: Blank,
    state: &State,
    id: u64,
) -> Result<Vec<Equation>, AllocError>
    requires name { blank.name ≡ L.name }
    requires parts { blank.parts ≡ L.parts }
    requires some { 0 < L.parts }
    requires settled { (edge : Edge) × WasSettled state.now id edge }
    ensures due { IfOk result (λ run. (k : Kernel) (edge : Edge) → IsKernel k → IsSettled k state.now id edge
        → k.bottom ≡ false → AreDue k id run.items) }
{
    let mut steps = Steps::<L>::open(blank);
    match state.core(id) {
        Some(core) => run_at_edge(alloc, core, &mut steps),
        None => Err(AllocError),
    }
}

/// The equations of the pending core with an id, as the store has it: of the core where it stands, if it is seen to be
/// stable but for its edge, and else of a copy.
fn equations_at(alloc: Global, state: &mut State, id: u64) -> Result<Vec<Equation>, AllocError>
    requires running { state.old.bottom ≡ false }
    ensures due { IfOk result (λ run. AreDue state.old id run.items) }
    ensures stays { state.new ≡ state.old }
{
    if let Some(edge) = state.settle(id)? {
        let equations = equations_at_edge::<Brand>(alloc, Blank::new(1), state, id);
        state.unsettle(id, edge);
        return equations;
    }
    match state.trimmed(alloc, id)? {
        Some(core) => equations_of::<Brand>(alloc, Blank::new(1), &core),
        None => Err(AllocError),
    }
}

/// A list of so many members is a long one.
const LONG: usize = 64;

/// Whether a core is a long maximum or sum. Its run begins with the bounds of its members, which are told in turn while
/// all atoms are free; once the first of them is made, one is a constant, and a run of the core has no bounds.
pub(crate) fn tells_bounds(core: &Core) -> bool {
    match core {
        Core::Max(ints, _) => ints.len() >= LONG,
        Core::Sum(ints, _) => ints.as_slice().len() >= LONG,
        _ => false,
    }
}

/// The run of the pending core with an id, as the store has it. There is none where a contradiction was found, no
/// pending core has the id, or memory is wanting.
pub(crate) fn run_at(alloc: Global, state: &mut State, id: u64) -> Option<Run>
    ensures id { IfSome result (λ run. run.id ≡ id) }
    ensures due { IfSome result (IsRunAt state.new) }
    ensures stays { state.new ≡ state.old }
{
    if state.bottom() {
        return None;
    }
    match equations_at(alloc, state, id) {
        Ok(equations) => Some(Run {
            id,
            equations,
            place: 0,
        }),
        Err(_) => None,
    }
}

/// Whether an equation is made.
fn is_made(view: &[Atom], e: &Equation) -> bool
    ensures { IsTrue result ↔ IsMade view.now e.now }
{
    resolve(view, e.a) == resolve(view, e.b)
}

/// Whether an equation, as the store has it, is one that is given.
fn stands_as(view: &[Atom], e: &Equation, given: &Equation) -> bool
    ensures { IsTrue result ↔ (given.now ≡ resolved_equation view.now e.now) }
{
    e.rule == given.rule && resolve(view, e.a) == given.a && resolve(view, e.b) == given.b
}

/// The place of the first equation of a run, from a place on, that is not made.
#[tactic(auto, using(crate::proofs::Turns::due_behind, crate::proofs::Turns::due_none))]
fn first_open(state: &State, id: u64, run: &[Equation], place: usize) -> usize
    requires { AreDue state.now id (drop place run.now) }
    ensures { AreDue state.now id (drop result run.now) }
{
    let view = state.view();
    for i in place..run.len() {
        if !is_made(view, &run[i]) {
            return i;
        }
    }
    run.len()
}

/// Whether an equation is the one at a place of a run, as the store has it, and is not made.
#[tactic(auto, using(crate::proofs::Turns::next_due))]
fn is_next(state: &State, id: u64, run: &[Equation], place: usize, e: &Equation) -> bool
    requires { AreDue state.now id (drop place run.now) }
    ensures low { IsTrue result → place < length run.now }
    ensures next { IsTrue result → IsNext state.now id e.now (drop (place + 1) run.now) }
{
    let view = state.view();
    if place >= run.len() || e.a == e.b {
        return false;
    }
    stands_as(view, &run[place], e)
}

/// What is left of a run behind an equation, where that is the first one of it that is not made, as the store has
/// it.
pub(crate) fn run_behind(state: &State, run: Run, e: &Equation) -> Option<Run>
    requires { IsRunAt state.now run }
    ensures id { IfSome result (λ behind. behind.id ≡ run.id) }
    ensures next { IfSome result
        (λ behind. IsNext state.now run.id e.now (drop behind.place behind.equations.items)) }
    ensures kernel { IsKernel state.now }
{
    let _vars = state.vars();
    let Run {
        id,
        equations,
        place,
    } = run;
    let place = first_open(state, id, equations.as_slice(), place);
    if !is_next(state, id, equations.as_slice(), place, e) {
        return None;
    }
    Some(Run {
        id,
        equations,
        place: place + 1,
    })
}
