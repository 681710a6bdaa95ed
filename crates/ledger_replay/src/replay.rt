//! A state that the lines of a ledger are made at.

ghost use Rattle.std.specs.Prelude.{◌≡◌, length, Ok, IfOk, IfErr, OnOk, OnErr, IfSome, IsTrue, true, false};
ghost use Rattle.order_ints.specs.Place.{InRange};
ghost use Rattle.step_kernel.specs.Kernel.{IsKernel};
ghost use Rattle.step_kernel.specs.CnfOf.{cnf_of};
ghost use Rattle.step_kernel.specs.Models.{Keeps};
ghost use Rattle.step_kernel.specs.Steps.{step, IsFaultOf};
ghost use Rattle.ledger_text.specs.declared.line.Line.TheVariants.{Equate};
ghost use Rattle.ledger_replay.specs.Due.{IsRunAt};

use crate::run::{Run, run_at, run_behind, tells_bounds};
use core_forms::{Equation, Rule};
use ledger_text::Line;
use order_ints::{Atom, Cnf};
use std::alloc::{AllocError, Global};
use std::marker::Model;
use step_kernel::{ApplyFault, State};

/// A state at which the lines of a ledger are made, one after another. Where two lines in a row are equations of one
/// core, it looks for a run of that core, and makes the lines that follow the run without a look at the core; at a long
/// maximum or sum it does so at the first line. It keeps one run at most, in the memory that its equations take.
#[derive(Drop)]
pub struct Replay {
    alloc: Global,
    state: State,
    run: Option<Run>,
    looked: Option<u64>,
}

impl Model for Replay {
    ghost use Rattle.std.specs.Prelude.{IfSome};
    ghost use Rattle.step_kernel.specs.Kernel.{Kernel};
    ghost use Rattle.ledger_replay.specs.Due.{IsRunAt};

    ghost Value = { Kernel };

    ghost view = { λ r. r.state };

    ghost invariant = { λ r. IfSome r.run (IsRunAt r.state) };
}

impl Replay {
    /// A state before the first line.
    pub fn with(alloc: Global, state: State) -> Replay
        ensures { result ≡ state }
    {
        Replay {
            alloc,
            state,
            run: None,
            looked: None,
        }
    }

    /// The label of each variable, that of variable 1 first.
    pub fn view(&self) -> &[Atom]
        ensures view { result.now ≡ self.now.view }
        ensures kernel { IsKernel self.now }
    {
        self.state.view()
    }

    /// How many variables there are.
    pub fn vars(&self) -> u32
        ensures vars { result ≡ length self.now.view }
        ensures kernel { IsKernel self.now }
    {
        self.state.vars()
    }

    /// The clauses in order, as the store has them now, each once; at bottom the empty clause alone.
    pub fn cnf(&self) -> Result<Cnf, AllocError>
        ensures shape { IfOk result (λ cnf. cnf ≡ cnf_of self.now) }
        ensures in_range { IfOk result InRange }
    {
        self.state.cnf()
    }

    /// Whether the core with an id tells bounds of many members.
    fn has_bounds(&self, id: u64) -> bool {
        match self.state.core(id) {
            Some(core) => tells_bounds(core),
            None => false,
        }
    }

    /// The run that is left, where it is of the core with an id, or else at every second line of it a run of that core:
    /// at the first line, where it tells bounds of many members, and else at the second. The run is taken out.
    fn take_run(&mut self, id: u64, rule: Rule) -> Option<Run>
        ensures stays { self.new ≡ self.old }
        ensures id { IfSome result (λ run. run.id ≡ id) }
        ensures due { IfSome result (IsRunAt self.new) }
    {
        let again = self.looked == Some(id);
        self.looked = Some(id);
        if let Some(run) = self.run.take() {
            if run.id == id {
                return Some(run);
            }
        }
        if again {
            self.looked = None;
        }
        if rule != Rule::Table && again != self.has_bounds(id) {
            return run_at(self.alloc, &mut self.state, id);
        }
        None
    }

    /// Makes an equation that is the next one of a run, and tells whether it was.
    #[tactic(auto, using(crate::proofs::Turns::run_after))]
    fn follow_run(&mut self, id: u64, e: &Equation) -> bool
        ensures made { IsTrue result → (step self.old (Equate id e.now) ≡ Ok self.new) }
        ensures stays { result ≡ false → (self.new ≡ self.old) }
    {
        let Some(run) = self.take_run(id, e.rule) else {
            return false;
        };
        let Some(behind) = run_behind(&self.state, run, e) else {
            return false;
        };
        self.run = None;
        self.state.equate_told(id, e);
        if !self.state.bottom() {
            self.run = Some(behind);
        }
        true
    }

    /// Makes a line that is the next one of a run, and tells whether it was.
    fn follow(&mut self, line: &Line) -> bool
        ensures made { IsTrue result → (step self.old line.now ≡ Ok self.new) }
        ensures stays { result ≡ false → (self.new ≡ self.old) }
        ensures kernel { IsKernel self.old }
    {
        let _vars = self.state.vars();
        match line {
            Line::Equate { id, e } => self.follow_run(*id, e),
            Line::Split { .. } | Line::Encode { .. } => {
                self.looked = None;
                false
            }
        }
    }

    /// Makes the step of a line, as the state does. A line that follows the run of its core looks at no core, takes
    /// no memory, and costs a walk of the class that loses, and the equations of the run that were made before it. Each
    /// other one costs what it costs the state, and every second one at most of a core a run of that besides. Where the
    /// line is no step, or memory is wanting, the state stays as it was.
    pub fn apply(&mut self, line: &Line) -> Result<(), ApplyFault>
        ensures step { OnOk result (step self.old line.now ≡ Ok self.new) }
        ensures fault { IfErr result (IsFaultOf (step self.old line.now)) }
        ensures stays { OnErr result (self.new ≡ self.old) }

        // The models stay, but for fresh variables.
        ensures models { OnOk result (Keeps self.old self.new) }
        ensures kernel { IsKernel self.new }
    {
        if self.follow(line) {
            return Ok(());
        }
        self.run = None;
        let made = self.state.apply(line);
        made
    }
}
