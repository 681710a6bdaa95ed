//! The state of a compilation.

ghost use Rattle.std.specs.Prelude.{◌≡◌, ◌+◌, ◌^◌, ◌<◌, ◌≤◌, ℕ, false, [], map, length, Some, Ok};
ghost use Rattle.std.specs.Prelude.{Err, IfOk, IfSome, OnOk, OnErr, MatchResult, IsTrue, None, Contains, option_copied};
ghost use Rattle.order_ints.specs.declared.cnf.Cnf.{Cnf};
ghost use Rattle.order_ints.specs.Label.{own_labels};
ghost use Rattle.order_ints.specs.Place.{InRange};
ghost use Rattle.core_forms.specs.declared.form.Core.{Core};
ghost use Rattle.core_forms.specs.declared.edges.Known.TheVariants.{ButLast};
ghost use Rattle.core_forms.specs.Cores.{CoresBelow, AreWellFormed, costs_of};
ghost use Rattle.core_forms.specs.Edges.{settled_core, listed_vars, IsKnown};
ghost use Rattle.core_forms.specs.Plain.{IsPlain};
ghost use Rattle.core_forms.specs.Variables.{core_vars};
ghost use Rattle.step_kernel.specs.declared.fault.ApplyFault.TheVariants.{Step, Memory};
ghost use Rattle.step_kernel.specs.Kernel.{Kernel, core_at, trimmed_at, started, most_potential, IsKernel};
ghost use Rattle.step_kernel.specs.Settled.{IsSettled, IsSettledWhole, WasSettled};
ghost use Rattle.step_kernel.specs.SplitAt.{IsStableAt};
ghost use Rattle.step_kernel.specs.Models.{Keeps};
ghost use Rattle.step_kernel.specs.Steps.{step};
ghost use Rattle.step_kernel.specs.CnfOf.{cnf_of};
ghost use Rattle.step_kernel.specs.Least.{least_of, least_compound_of};

use crate::clause_list::ClauseList;
use crate::fault::{ApplyFault, StepFault};
use crate::lists::all_pending;
use crate::settling::{mark_inside, settle_at, unsettle_at};
use crate::stable_marks::StableMarks;
use bee_list::Sequence;
use clause_order::OrderedClauses;
use core_forms::{Core, Edge, Equation, Known, has_own_edge, is_basic, is_edge_stable, trim};
use core_parts::{is_compound, parts};
use core_rules::is_instance;
use equation_store::{EqStore, Merged};
use ledger_text::Line;
use order_ints::{Atom, Cnf};
use std::alloc::{AllocError, Global};
use std::marker::Model;

/// The state of a compilation: variables with their labels, pending cores by id, clauses, and whether a
/// contradiction was found. Cores stay as they were made and are trimmed where they are looked at; a core
/// that leaves empties its place, so that it is found and let go in constant time.
#[derive(Drop)]
pub struct State {
    pub(crate) store: EqStore,
    pub(crate) cores: Vec<Option<Core>>,
    pub(crate) clauses: ClauseList,
    pub(crate) bottom: bool,
    pub(crate) first: usize,
    pub(crate) stable: StableMarks,
}

impl Model for State {
    ghost use Rattle.step_kernel.specs.Kernel.{Kernel};
    ghost use Rattle.step_kernel.specs.Cursor.{IsState, kernel_of};

    ghost Value = { Kernel };

    ghost view = { λ s. kernel_of s.store s.cores.items s.clauses s.bottom };

    ghost invariant = { λ s. IsState (kernel_of s.store s.cores.items s.clauses s.bottom) s.first s.stable };
}

impl State {
    /// The label of each variable, that of variable 1 first.
    pub fn view(&self) -> &[Atom]
        ensures view { result.now ≡ self.now.view }
        ensures kernel { IsKernel self.now }
    {
        self.store.view()
    }

    /// The store of equations.
    pub fn store(&self) -> &EqStore
        ensures view { result.now.view ≡ self.now.view }
        ensures kernel { IsKernel self.now }
    {
        &self.store
    }

    /// How many variables there are.
    pub fn vars(&self) -> u32
        ensures vars { result ≡ length self.now.view }
        ensures kernel { IsKernel self.now }
    {
        self.store.view().len() as u32
    }

    /// Whether a contradiction was found.
    pub fn bottom(&self) -> bool
        ensures bottom { result ≡ self.now.bottom }
        ensures kernel { IsKernel self.now }
    {
        self.bottom
    }

    /// How many ids there are: they are from 1 to this number.
    pub fn ids(&self) -> u64
        ensures ids { result ≡ length self.now.cores }
        ensures kernel { IsKernel self.now }
    {
        self.cores.len() as u64
    }

    /// The pending core with an id, as it was made. It takes constant time.
    pub fn core(&self, id: u64) -> Option<&Core>
        ensures core { option_copied result ≡ core_at self.now.cores id }
        ensures kernel { IsKernel self.now }
    {
        if id == 0 || id > self.cores.len() as u64 {
            return None;
        }
        self.cores[id as usize - 1].as_ref()
    }

    /// Has the edge of a pending core whose members are stable as the store has it, and gives what stood there. It
    /// takes one pass over the core, and the time of the edge where it was seen before.
    pub fn settle(&mut self, id: u64) -> Result<Option<Edge>, AllocError>
        ensures settled { IfOk result (λ made. IfSome made (λ edge. IsSettled self.old self.new id edge)) }
        ensures none { IfOk result (λ made. made ≡ None → self.new ≡ self.old) }
        ensures stays { OnErr result (self.new ≡ self.old) }
        ensures kernel { IsKernel self.old }
    {
        settle_at(&mut self.cores, &mut self.stable, self.store.view(), id)
    }

    /// Has the edge of a pending core as it stood before.
    pub fn unsettle(&mut self, id: u64, edge: Edge)
        requires { WasSettled self.old id edge }
        ensures { (k : Kernel) → IsSettled k self.old id edge → self.new ≡ k }
    {
        unsettle_at(&mut self.cores, id, edge);
    }

    /// Whether the pending core with an id is seen to be stable, so that nothing is to be trimmed and its order tells
    /// nothing. It takes one pass over the core, and the time of its edge where its members were seen to be stable
    /// before, or where the core is what is left of such a one that was split at its front.
    pub fn mark_stable(&mut self, id: u64) -> bool
        ensures stable { IsTrue result → IsStableAt self.old id }
        ensures stays { self.new ≡ self.old }
        ensures kernel { IsKernel self.old }
    {
        if !mark_inside(
            self.cores.as_slice(),
            &mut self.stable,
            self.store.view(),
            id,
        ) {
            return false;
        }
        match self.core(id) {
            Some(core) => is_edge_stable(core, self.store.view()),
            None => false,
        }
    }

    /// Whether a pending core that is plain but for its edge is plain.
    fn is_whole(&self, id: u64) -> bool
        requires { (core : Core) → core_at self.now.cores id ≡ Some core → IsKnown ButLast core }
        ensures { IsTrue result → (core : Core) → core_at self.now.cores id ≡ Some core → IsPlain core }
    {
        match self.core(id) {
            Some(core) => matches!(core.known(), Known::Plain),
            None => false,
        }
    }

    /// Whether a pending core's edge, once it is settled, lists no other variable.
    fn has_own_edge(&self, id: u64) -> bool
        ensures own { IsTrue result → (core : Core) → core_at self.now.cores id ≡ Some core
            → (v : ℕ) → Contains (listed_vars (settled_core self.now.view core)) v → Contains (core_vars core) v }
        ensures kernel { IsKernel self.now }
    {
        match self.core(id) {
            Some(core) => has_own_edge(core, self.store.view()),
            None => false,
        }
    }

    /// Has the edge of a pending core as the store has it, where the core is then stable and lists no other variable.
    pub(crate) fn settle_whole(&mut self, id: u64) -> Result<Option<Edge>, AllocError>
        ensures settled { IfOk result (λ made. IfSome made (λ edge. IsSettledWhole self.old self.new id edge)) }
        ensures none { IfOk result (λ made. made ≡ None → self.new ≡ self.old) }
        ensures stays { OnErr result (self.new ≡ self.old) }
        ensures kernel { IsKernel self.old }
    {
        if !self.has_own_edge(id) {
            return Ok(None);
        }
        let edge = match self.settle(id)? {
            Some(edge) => edge,
            None => return Ok(None),
        };
        if self.is_whole(id) {
            return Ok(Some(edge));
        }
        self.unsettle(id, edge);
        Ok(None)
    }

    /// Whether a pending core is seen at once to have no variable: its members are marked to be stable, and have none
    /// so great, and its edge hasn't it. It takes the time of the edge.
    pub fn lacks(&self, id: u64, var: u32) -> bool
        ensures { IsTrue result → (core : Core) → core_at self.now.cores id ≡ Some core
            → Contains (core_vars core) var → ⊥ }
    {
        match self.core(id) {
            Some(core) => self.stable.is_marked(id as usize - 1)
                && self.stable.is_above(var)
                && !core.has_at_edge(var),
            None => true,
        }
    }

    /// The pending core with an id, as the store has it. It takes the time and the memory of its size.
    pub fn trimmed(&self, alloc: Global, id: u64) -> Result<Option<Core>, AllocError>
        ensures trimmed { IfOk result (λ core. core ≡ trimmed_at self.now id) }
        ensures kernel { IsKernel self.now }
    {
        match self.core(id) {
            Some(core) => Ok(Some(trim(alloc, core, self.store.view())?)),
            None => Ok(None),
        }
    }

    /// The state of cores over variables 1 to `vars`, each variable its own label; the ids are 1 and those
    /// after it, in order.
    pub fn start(alloc: Global, vars: u32, cores: Vec<Core>) -> Result<State, AllocError>
        requires formed { AreWellFormed cores.items }
        requires below { CoresBelow (vars + 1) cores.items }
        requires small { vars + costs_of cores.items ≤ most_potential }
        ensures start { IfOk result (λ state. state ≡ started vars cores.items) }
        ensures kernel { IfOk result IsKernel }
    {
        let store = EqStore::with(alloc, vars)?;
        let cores = all_pending(alloc, cores)?;
        let mut stable = StableMarks::new(alloc);
        stable.grow(cores.len())?;
        Ok(State {
            store,
            cores,
            clauses: ClauseList::new(alloc),
            bottom: false,
            first: 0,
            stable,
        })
    }

    /// The least pending id. It takes constant time.
    pub fn least(&self) -> Option<u64>
        ensures least { result ≡ least_of self.now }
        ensures kernel { IsKernel self.now }
    {
        if self.first < self.cores.len() {
            Some(self.first as u64 + 1)
        } else {
            None
        }
    }
}
