//! Equations that a core tells, taken one after another.

ghost use Rattle.std.specs.Prelude.{ℕ, List, ◌≡◌, ◌⊎◌, ◌||◌, ◌+◌, ◌<◌, ◌≤◌, ◌++◌};
ghost use Rattle.std.specs.Prelude.{◌∷◌, [], true, false, length, vec_len, vec_capacity, Some, Ok};
ghost use Rattle.order_ints.specs.Label.{IsLabel};
ghost use Rattle.order_ints.specs.Place.{AtomBelow};
ghost use Rattle.index_ring.specs.Lists.{times};
ghost use Rattle.core_forms.specs.declared.equation.Equation.{Equation};
ghost use Rattle.core_forms.specs.declared.form.Core.{Core};
ghost use Rattle.core_forms.specs.Place.{CoreBelow};
ghost use Rattle.core_forms.specs.Trimmed.{trimmed_core};
ghost use Rattle.equation_runs.specs.Turns.{resolved_equation, IsMadeOrTold, AreInTurn, AreToldInTurn, EquationsBelow};
ghost use Rattle.ledger_text.specs.declared.line.Line.TheVariants.{Equate};
ghost use Rattle.step_kernel.specs.Kernel.{trimmed_at, IsKernel};
ghost use Rattle.step_kernel.specs.Instances.{IsInstanceAt};
ghost use Rattle.step_kernel.specs.Steps.{step, equated};
ghost use Rattle.fixpoint_queue.specs.IdQueue.{IsIds};
ghost use Rattle.fixpoint_queue.specs.Listed.{IsListed};
ghost use Rattle.fixpoint_queue.specs.Taken.{HasTaken};
ghost use Rattle.fixpoint_queue.specs.Told.{IsToldInstance};
ghost use Rattle.fixpoint_queue.specs.Waits.{IsSaturation, IsWokenFor};

use crate::oracle::Oracle;
use crate::worklist::Worklist;
use core_forms::Equation;
use ledger_text::Line;
use std::sync::ledger::Ledger;
use step_kernel::State;

impl Worklist {
    /// Queues the cores that may tell something new once an equation is made.
    fn wake_for(&mut self, state: &State, e: &Equation)
        requires kernel { IsKernel state.now }
        requires first { IsLabel state.now.view e.now.a }
        requires second { IsLabel state.now.view e.now.b }
        requires listed { IsListed state.now self.old.occurs }
        requires places { length state.now.cores < self.old.queue.places }
        requires queued { IsIds self.old.queue }
        ensures woken { IsWokenFor state.now e.now self.old.queue self.new.queue }
        ensures occurs { self.new.occurs ≡ self.old.occurs }
        ensures marks { self.new.marks ≡ self.old.marks }
    {
        if let Some(loser) = state.store().loser(e.a, e.b) {
            self.wake(state, state.store(), loser);
        }
    }
}

/// Takes an equation that was told: queues what it wakes, makes its step, and writes its line.
pub fn take_equation(
    state: &mut State,
    work: &mut Worklist,
    ledger: &mut Vec<Line>,
    id: u64,
    e: Equation,
)
    requires kernel { IsKernel state.old }
    requires running { state.old.bottom ≡ false }
    requires instance { IsInstanceAt state.old id e }
    requires listed { IsListed state.old work.old.occurs }
    requires places { length state.old.cores < work.old.queue.places }
    requires queued { IsIds work.old.queue }
    requires room { vec_len ledger.old < vec_capacity ledger.old }
    ensures step { step state.old (Equate id e) ≡ Ok state.new }
    ensures equated { state.new ≡ equated state.old e }
    ensures woken { IsWokenFor state.old e work.old.queue work.new.queue }
    ensures occurs { work.new.occurs ≡ work.old.occurs }
    ensures marks { work.new.marks ≡ work.old.marks }
    ensures ledger { ledger.new.items ≡ ledger.old.items ++ Equate id e ∷ [] }
    ensures lines { vec_len ledger.new ≡ vec_len ledger.old + 1 }
    ensures room { vec_capacity ledger.new ≡ vec_capacity ledger.old }
{
    work.wake_for(state, &e);
    state.equate_told(id, &e);
    ledger.push_reserved(Line::Equate { id, e });
}

/// An equation with its atoms as the store has them.
fn resolved(state: &State, e: &Equation) -> Equation
    requires first { AtomBelow (length state.now.view + 1) e.now.a }
    requires second { AtomBelow (length state.now.view + 1) e.now.b }
    ensures { result ≡ resolved_equation state.now.view e.now }
{
    Equation {
        rule: e.rule,
        a: state.store().resolve(e.a),
        b: state.store().resolve(e.b),
    }
}

/// Takes an equation of a run, as the store has it, unless it is made already, and tells whether it did.
fn take_next<F: Oracle<L>, L: Ledger>(
    state: &mut State,
    work: &mut Worklist,
    ledger: &mut Vec<Line>,
    id: u32,
    e: &Equation,
) -> bool
    ghost core: { Core }
    requires saturation { IsSaturation F.told state.old work.old.occurs work.old.queue work.old.marks }
    requires running { state.old.bottom ≡ false }
    requires queued { 1 ≤ times id work.old.queue.queued }
    requires there { trimmed_at state.old id ≡ Some (trimmed_core state.old.view core) }
    requires core { CoreBelow (length state.old.view + 1) core }
    requires first { AtomBelow (length state.old.view + 1) e.now.a }
    requires second { AtomBelow (length state.old.view + 1) e.now.b }
    requires told { IsMadeOrTold (IsToldInstance F.told) core state.old.view e.now }
    requires room { vec_len ledger.old < vec_capacity ledger.old }
    ensures taken { HasTaken F.told id core
        state.old ledger.old.items work.old state.new ledger.new.items work.new result }
    ensures turn { (es : List Equation) → AreInTurn (IsToldInstance F.told) core state.old.view (e.now ∷ es)
        → (state.new.bottom ≡ true) ⊎ AreInTurn (IsToldInstance F.told) core state.new.view es }
    ensures lines { vec_len ledger.new ≤ vec_len ledger.old + 1 }
    ensures room { vec_capacity ledger.new ≡ vec_capacity ledger.old }
{
    let e = resolved(state, e);
    if e.a == e.b {
        return false;
    }
    take_equation(state, work, ledger, u64::from(id), e);
    true
}

/// Whether one of two flags is set.
fn either(first: bool, second: bool) -> bool
    ensures { result ≡ (first || second) }
{
    first || second
}

/// Takes equations that a core tells one after another, up to a contradiction, and tells whether one was taken. No code
/// holds the core, as the store has it before the first of them: the clauses name it.
pub fn take_run<F: Oracle<L>, L: Ledger>(
    state: &mut State,
    work: &mut Worklist,
    ledger: &mut Vec<Line>,
    id: u32,
    run: &[Equation],
) -> bool
    ghost core: { Core }
    requires saturation { IsSaturation F.told state.old work.old.occurs work.old.queue work.old.marks }
    requires queued { 1 ≤ times id work.old.queue.queued }
    requires there { trimmed_at state.old id ≡ Some core }
    requires below { EquationsBelow (length state.old.view + 1) run.now }
    requires told { AreToldInTurn (IsToldInstance F.told) core run.now }
    requires room { vec_len ledger.old + length run.now ≤ vec_capacity ledger.old }
    ensures taken { HasTaken F.told id core
        state.old ledger.old.items work.old state.new ledger.new.items work.new result }
    ensures lines { vec_len ledger.new ≤ vec_len ledger.old + length run.now }
    ensures room { vec_capacity ledger.new ≡ vec_capacity ledger.old }
{
    let mut some = false;
    for e in run {
        if state.bottom() {
            return some;
        }
        let taken = take_next::<F, L>(state, work, ledger, id, e);
        some = either(some, taken);
    }
    some
}
