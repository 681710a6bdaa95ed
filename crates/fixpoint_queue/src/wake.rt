//! Which cores may tell something new after an equation.

ghost use Rattle.std.specs.Prelude.{◌≡◌, ◌<◌, ◌≤◌, ◌⊎◌, ◌↔◌, ℕ, true, length, Contains};
ghost use Rattle.order_ints.specs.Label.{IsOwnLabel};
ghost use Rattle.index_ring.specs.Lists.{times};
ghost use Rattle.equation_store.specs.Class.{IsMember};
ghost use Rattle.fixpoint_queue.specs.IdQueue.{IsIds};
ghost use Rattle.fixpoint_queue.specs.Listed.{HasVar, IsListed};
ghost use Rattle.fixpoint_queue.specs.Waits.{IsWoken};

use crate::having::has_variable;
use crate::id_queue::IdQueue;
use crate::id_ring::IdRing;
use crate::worklist::Worklist;
use core_forms::Core;
use core_occurrences::Occurrences;
use equation_store::EqStore;
use step_kernel::State;

/// Whether there is a pending core with an id that has a variable.
fn is_at(state: &State, id: u32, var: u32) -> bool
    ensures { result ≡ true ↔ HasVar state.now id var }
{
    if state.lacks(id.into(), var) {
        return false;
    }
    match state.core(id.into()) {
        Some(core) => has_variable(core, var),
        None => false,
    }
}

/// The most members of a list that is asked as soon as others.
const SHORT: usize = 64;

/// Whether a core has a long list. A query goes along it, so it is asked when those with short ones tell nothing
/// more: each equation that these tell on the way would ask it anew.
fn is_long(core: &Core) -> bool {
    match core {
        Core::Clause(atoms)
        | Core::Parity(atoms, _)
        | Core::Conj(_, atoms)
        | Core::Amo(atoms)
        | Core::Count(atoms, _) => atoms.len() > SHORT,
        Core::Max(ints, _) | Core::AllDiff(ints, _) => ints.len() > SHORT,
        Core::Sum(ints, _) => ints.as_slice().len() > SHORT,
        Core::Lex(_, _, front, _) => front.get().len() > SHORT,
        _ => false,
    }
}

/// Whether the core with an id waits for others.
fn is_late(state: &State, id: u32) -> bool {
    match state.core(id.into()) {
        Some(core) => is_long(core),
        None => false,
    }
}

/// Queues the core with an id, where it has a variable; a core that is queued isn't looked at.
fn put_having(state: &State, ids: &mut IdRing, id: u32, var: u32)
    requires place { id < ids.old.places }
    requires queued { IsIds ids.old }
    ensures places { ids.new.places ≡ ids.old.places }
    ensures queued { IsIds ids.new }
    ensures stays { (i : ℕ) → 1 ≤ times i ids.old.queued → 1 ≤ times i ids.new.queued }
    ensures woken { HasVar state.now id var → 1 ≤ times id ids.new.queued }
    ensures only { (i : ℕ) → 1 ≤ times i ids.new.queued
        → (1 ≤ times i ids.old.queued) ⊎ HasVar state.now i var }
{
    if !ids.has(id) && is_at(state, id, var) {
        ids.put(id, is_late(state, id));
    }
}

/// Queues the cores with some ids that have a variable.
fn put_all_having(state: &State, ids: &mut IdRing, coming: &[u32], var: u32)
    requires places { (id : ℕ) → Contains coming.now id → id < ids.old.places }
    requires queued { IsIds ids.old }
    ensures places { ids.new.places ≡ ids.old.places }
    ensures queued { IsIds ids.new }
    ensures stays { (id : ℕ) → 1 ≤ times id ids.old.queued → 1 ≤ times id ids.new.queued }
    ensures woken { (id : ℕ) → Contains coming.now id → HasVar state.now id var
        → 1 ≤ times id ids.new.queued }
    ensures only { (id : ℕ) → 1 ≤ times id ids.new.queued
        → (1 ≤ times id ids.old.queued) ⊎ HasVar state.now id var }
{
    for id in coming {
        put_having(state, ids, *id, var);
    }
}

impl IdQueue {
    /// Queues the cores that have a variable, those with lesser ids first.
    fn wake_at(&mut self, state: &State, occurs: &Occurrences, var: u32)
        requires low { 1 ≤ var }
        requires high { var ≤ length state.now.view }
        requires listed { IsListed state.now occurs.now }
        requires places { length state.now.cores < self.old.places }
        requires queued { IsIds self.old }
        ensures places { self.new.places ≡ self.old.places }
        ensures queued { IsIds self.new }
        ensures stays { (id : ℕ) → 1 ≤ times id self.old.queued → 1 ≤ times id self.new.queued }
        ensures woken { (id : ℕ) → HasVar state.now id var → 1 ≤ times id self.new.queued }
        ensures only { (id : ℕ) → 1 ≤ times id self.new.queued
            → (1 ≤ times id self.old.queued) ⊎ HasVar state.now id var }
    {
        occurs.ids_at(var, &mut self.coming);
        put_all_having(state, &mut self.ids, self.coming.as_slice(), var);
        self.coming.clear();
    }
}

impl Worklist {
    /// Queues the cores that have a member of a class, by the store of their state.
    pub fn wake(&mut self, state: &State, store: &EqStore, label: u32)
        requires same { store.now.view ≡ state.now.view }
        requires low { 1 ≤ label }
        requires high { label ≤ length store.now.view }
        requires own { IsOwnLabel store.now.view label }
        requires listed { IsListed state.now self.old.occurs }
        requires places { length state.now.cores < self.old.queue.places }
        requires queued { IsIds self.old.queue }
        ensures woken { IsWoken state.now label self.old.queue self.new.queue }
        ensures occurs { self.new.occurs ≡ self.old.occurs }
        ensures marks { self.new.marks ≡ self.old.marks }
    {
        let mut next = store.first(label);
        while let Some(var) = next {
            self.queue.wake_at(state, &self.occurs, var);
            next = store.after(var);
        }
    }
}
