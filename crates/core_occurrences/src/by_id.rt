//! Occurrences of variables in cores, two of which may exchange theirs.

ghost use Rattle.std.specs.Prelude.{◌≡◌, ◌+◌, ◌^◌, ◌<◌, ◌≤◌, ◌↔◌, ℕ, [], length, IfOk};
ghost use Rattle.std.specs.Prelude.{OnOk, OnErr, IsTrue, Contains, vec_capacity};
ghost use Rattle.std.specs.List.{All};
ghost use Rattle.std.specs.List.Sorted.{IsStrictlyIncreasing};
ghost use Rattle.core_occurrences.specs.Lists.{IsOccurrences, Occurs, cores_at, no_occurrences, grown, added, removed};
ghost use Rattle.core_occurrences.specs.Bodies.{exchanged};

use crate::lists::BodyOccurrences;
use crate::names::{exchange_bodies, push_names};
use std::alloc::{AllocError, Global};
use std::marker::Model;

/// For each variable, numbered from 1 on, the ids of the cores that it occurs in, from 1 on, each once. Occurrences
/// stay with a body, and a body has an id, so that all those of two ids are exchanged in constant time. Sixteen
/// bytes for each occurrence that there is room for, eight for each variable, twelve for each id.
#[derive(Drop)]
pub struct Occurrences {
    held: BodyOccurrences,
    bodies: Vec<u32>,
    cores: Vec<u32>,
}

impl Model for Occurrences {
    ghost use Rattle.core_occurrences.specs.Lists.{OccurrenceLists};

    ghost Value = { OccurrenceLists };

    ghost use Rattle.core_occurrences.specs.Bodies.{AreBodies, named};

    ghost view = { λ s. named s.cores.items s.held };

    ghost invariant = { λ s. AreBodies s.bodies.items s.cores.items s.held };
}

impl Occurrences {
    /// Variables that occur in no core, with no id and no room.
    pub fn with(alloc: Global, vars: u32) -> Result<Occurrences, AllocError>
        ensures lists { IfOk result (λ made. made ≡ no_occurrences vars) }
        ensures occurrences { IfOk result IsOccurrences }
    {
        let held = BodyOccurrences::with(alloc, vars)?;
        let mut bodies = Vec::new(alloc);
        bodies.push(0)?;
        let mut cores = Vec::new(alloc);
        cores.push(0)?;
        Ok(Occurrences {
            held,
            bodies,
            cores,
        })
    }

    /// Adds variables that occur in no core, ids, and room for occurrences. It takes all the memory first. Where
    /// the variables and nodes together would reach 2^31, or the ids 2^32, it is as if memory were wanting.
    pub fn grow(&mut self, vars: u32, ids: u32, nodes: u32) -> Result<(), AllocError>
        ensures lists { OnOk result (self.new ≡ grown self.old vars ids nodes) }
        ensures err { OnErr result (self.new ≡ self.old) }
        ensures occurrences { IsOccurrences self.new }
    {
        self.bodies.reserve(ids as usize)?;
        self.cores.reserve(ids as usize)?;
        self.held.grow(vars, ids, nodes)?;
        let last = self.held.ids();
        push_names(&mut self.bodies, ids, last);
        push_names(&mut self.cores, ids, last);
        Ok(())
    }

    /// Adds an occurrence of each listed variable in a core, in constant time for each. It takes no memory.
    pub fn add(&mut self, id: u32, vars: &[u32])
        requires id { (1 ≤ id) × (id ≤ self.old.ids) }
        requires increasing { IsStrictlyIncreasing vars.now }
        requires vars { All (λ v. (1 ≤ v) × (v ≤ length self.old.lists)) vars.now }
        requires fresh { (v : ℕ) → Contains vars.now v → ¬ Occurs self.old v id }
        requires room { length vars.now ≤ self.old.room }
        ensures lists { self.new ≡ added self.old id vars.now }
        ensures occurrences { IsOccurrences self.new }
    {
        let body = self.bodies.as_slice()[id as usize];
        self.held.add(body, vars);
    }

    /// Takes a core away, in constant time for each of its occurrences, for which there is room again. It takes
    /// no memory.
    pub fn remove(&mut self, id: u32)
        requires { (1 ≤ id) × (id ≤ self.old.ids) }
        ensures lists { self.new ≡ removed self.old id }
        ensures occurrences { IsOccurrences self.new }
    {
        let body = self.bodies.as_slice()[id as usize];
        self.held.remove(body);
    }

    /// Exchanges all occurrences of two cores, in constant time.
    pub fn exchange(&mut self, first: u32, second: u32)
        requires first { (1 ≤ first) × (first ≤ self.old.ids) }
        requires second { (1 ≤ second) × (second ≤ self.old.ids) }
        ensures lists { self.new ≡ exchanged self.old first second }
        ensures occurrences { IsOccurrences self.new }
    {
        let bodies = self.bodies.as_mut_slice();
        exchange_bodies(bodies, self.cores.as_mut_slice(), first, second);
    }

    /// Lists the ids of the cores that a variable occurs in, upwards, in the room of an empty list.
    pub fn ids_at(&self, var: u32, ids: &mut Vec<u32>)
        requires var { (1 ≤ var) × (var ≤ length self.now.lists) }
        requires empty { ids.old.items ≡ [] }
        requires room { length (cores_at self.now var) ≤ vec_capacity ids.old }
        ensures same { (id : ℕ) → Contains ids.new.items id ↔ Occurs self.now var id }
        ensures ascending { IsStrictlyIncreasing ids.new.items }
        ensures room { vec_capacity ids.old ≤ vec_capacity ids.new }
        ensures occurrences { IsOccurrences self.now }
    {
        let cores = self.cores.as_slice();
        for body in self.held.cores_of(var) {
            ids.push(cores[body as usize]).unwrap();
        }
        ids.sort_unstable();
    }

    /// Whether a variable occurs in no core. It takes constant time.
    pub fn is_bare(&self, var: u32) -> bool
        requires { (1 ≤ var) × (var ≤ length self.now.lists) }
        ensures bare { IsTrue result ↔ (cores_at self.now var ≡ []) }
    {
        self.held.cores_of(var).next().is_none()
    }

    /// Whether no variable occurs in a core. It takes constant time.
    pub fn is_absent(&self, id: u32) -> bool
        requires { (1 ≤ id) × (id ≤ self.now.ids) }
        ensures absent { IsTrue result ↔ ((v : ℕ) → ¬ Occurs self.now v id) }
        ensures occurrences { IsOccurrences self.now }
    {
        self.held.is_absent(self.bodies.as_slice()[id as usize])
    }

    /// The number of variables.
    pub fn vars(&self) -> u32
        ensures count { result ≡ length self.now.lists }
        ensures occurrences { IsOccurrences self.now }
    {
        self.held.vars()
    }

    /// The greatest id that there is a place for.
    pub fn ids(&self) -> u32
        ensures count { result ≡ self.now.ids }
        ensures occurrences { IsOccurrences self.now }
    {
        self.held.ids()
    }

    /// How many occurrences more there is room for.
    pub fn room(&self) -> u32
        ensures count { result ≡ self.now.room }
        ensures occurrences { IsOccurrences self.now }
    {
        self.held.room()
    }
}
