//! A queue of ids, each once, in which some wait for all others.

ghost use Rattle.std.specs.Prelude.{◌⊎◌, ◌≡◌, ◌+◌, ◌-◌, ◌<◌, ◌≤◌, ◌^◌, [], ◌↔◌};
ghost use Rattle.std.specs.Prelude.{IfOk, OnOk, true};
ghost use Rattle.index_ring.specs.Lists.{first_in, times, without};
ghost use Rattle.fixpoint_queue.specs.IdQueue.{IsIds, IsPut};

use index_ring::Rings;
use std::alloc::{AllocError, Global};
use std::marker::Model;

/// The ring of the ids that come first, and that of those that wait for them.
const SOON: u32 = 0;

const LATE: u32 = 1;

/// Ids in a queue, each once, as the nodes of two rings, one behind the other. Each move takes constant time and no
/// memory.
#[derive(Drop)]
pub struct IdRing {
    rings: Rings,
}

/// The ring into which an id comes.
fn ring_of(late: bool) -> u32
    ensures { result < 2 }
{
    if late { LATE } else { SOON }
}

impl Model for IdRing {
    ghost use Rattle.fixpoint_queue.specs.IdQueue.{Ids, AreQueueRings, ids_of};

    ghost Value = { Ids };

    ghost view = { λ s. ids_of s.rings };

    ghost invariant = { λ s. AreQueueRings s.rings };
}

impl IdRing {
    /// An empty queue, with places for the ids below a number.
    pub fn with(alloc: Global, ids: u32) -> Result<IdRing, AllocError>
        requires { ids < 2 ^ 31 - 2 }
        ensures queued { IfOk result (λ queue. queue.queued ≡ []) }
        ensures places { IfOk result (λ queue. queue.places ≡ ids) }
        ensures ids { IfOk result IsIds }
    {
        Ok(IdRing {
            rings: Rings::with(alloc, 2, ids)?,
        })
    }

    /// Makes places for the ids below a number, where they are not there.
    pub fn grow_to(&mut self, ids: u32) -> Result<(), AllocError>
        requires { ids < 2 ^ 31 - 2 }
        ensures queued { self.new.queued ≡ self.old.queued }
        ensures places { self.old.places ≤ self.new.places }
        ensures enough { OnOk result (ids ≤ self.new.places) }
        ensures exact { (self.new.places ≡ self.old.places) ⊎ (self.new.places ≡ ids) }
        ensures ids { IsIds self.new }
    {
        let places = self.rings.nodes();
        if places < ids {
            self.rings.grow(0, ids - places)?;
        }
        Ok(())
    }

    /// The first id.
    pub fn first(&self) -> Option<u32>
        ensures first { result ≡ first_in self.now.queued }
        ensures ids { IsIds self.now }
    {
        match self.rings.first(SOON) {
            Some(id) => Some(id),
            None => self.rings.first(LATE),
        }
    }

    /// Whether an id is in the queue.
    pub fn has(&self, id: u32) -> bool
        requires { id < self.now.places }
        ensures { result ≡ true ↔ (1 ≤ times id self.now.queued) }
    {
        !self.rings.is_free(id)
    }

    /// Puts an id at the end, or behind those that come first, unless it is in the queue.
    pub fn put(&mut self, id: u32, late: bool)
        requires { id < self.old.places }
        ensures put { IsPut self.old id self.new }
        ensures ids { IsIds self.new }
    {
        if !self.has(id) {
            self.rings.push_back(ring_of(late), id);
        }
    }

    /// Takes an id out.
    pub fn take(&mut self, id: u32)
        requires place { id < self.old.places }
        ensures queued { self.new.queued ≡ without id self.old.queued }
        ensures places { self.new.places ≡ self.old.places }
        ensures ids { IsIds self.new }
    {
        if self.has(id) {
            self.rings.unlink(id);
        }
    }
}
