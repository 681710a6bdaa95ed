//! A queue of ids, each once, with room to list some of them.

ghost use Rattle.std.specs.Prelude.{◌≡◌, ◌-◌, ◌^◌, ◌<◌, ◌≤◌, ◌⊎◌, ℕ, [], IfOk, OnOk};
ghost use Rattle.std.specs.Prelude.{length};
ghost use Rattle.index_ring.specs.Lists.{first_in, times, without};
ghost use Rattle.fixpoint_queue.specs.IdQueue.{IsIds, IsPut};

use crate::id_ring::IdRing;
use std::alloc::{AllocError, Global};
use std::marker::Model;

/// Ids in a queue, each once. Each move takes constant time and no memory. An empty list has room for each
/// id that there is a place for.
#[derive(Drop)]
pub struct IdQueue {
    pub(crate) ids: IdRing,
    pub(crate) coming: Vec<u32>,
}

impl Model for IdQueue {
    ghost use Rattle.std.specs.Prelude.{◌≡◌, ◌≤◌, [], vec_capacity};
    ghost use Rattle.fixpoint_queue.specs.IdQueue.{Ids, IsIds};

    ghost Value = { Ids };

    ghost view = { λ s. s.ids };

    ghost invariant = { λ s. (s.coming.items ≡ []) × (s.ids.places ≤ vec_capacity s.coming) × IsIds s.ids };
}

impl IdQueue {
    /// An empty queue, with places for the ids below a number.
    pub fn with(alloc: Global, ids: u32) -> Result<IdQueue, AllocError>
        requires { ids < 2 ^ 31 - 2 }
        ensures queued { IfOk result (λ queue. queue.queued ≡ []) }
        ensures places { IfOk result (λ queue. queue.places ≡ ids) }
        ensures ids { IfOk result IsIds }
    {
        let coming = Vec::with_capacity(alloc, ids as usize)?;
        Ok(IdQueue {
            ids: IdRing::with(alloc, ids)?,
            coming,
        })
    }

    /// Makes places for the ids below a number, where they are not there.
    pub fn grow_to(&mut self, ids: u32) -> Result<(), AllocError>
        requires { ids < 2 ^ 31 - 2 }
        ensures queued { self.new.queued ≡ self.old.queued }
        ensures places { self.old.places ≤ self.new.places }
        ensures enough { OnOk result (ids ≤ self.new.places) }
        ensures ids { IsIds self.new }
    {
        self.coming.reserve(ids as usize)?;
        self.ids.grow_to(ids)
    }

    /// The first id.
    pub fn first(&self) -> Option<u32>
        ensures first { result ≡ first_in self.now.queued }
        ensures ids { IsIds self.now }
    {
        self.ids.first()
    }

    /// Puts an id behind those that come first, unless it is in the queue.
    pub fn put(&mut self, id: u32)
        requires { id < self.old.places }
        ensures put { IsPut self.old id self.new }
        ensures ids { IsIds self.new }
    {
        self.ids.put(id, false);
    }

    /// Takes an id out.
    pub fn take(&mut self, id: u32)
        requires place { id < self.old.places }
        ensures queued { self.new.queued ≡ without id self.old.queued }
        ensures places { self.new.places ≡ self.old.places }
        ensures ids { IsIds self.new }
    {
        self.ids.take(id);
    }
}
