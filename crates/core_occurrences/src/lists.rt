//! Occurrences of variables in bodies, each of which is a core.

ghost use Rattle.std.specs.Prelude.{◌≡◌, ◌+◌, ◌^◌, ◌<◌, ◌≤◌, ◌↔◌, ℕ, length, IfOk};
ghost use Rattle.std.specs.Prelude.{OnOk, OnErr, IsTrue, Contains};
ghost use Rattle.std.specs.List.{All};
ghost use Rattle.std.specs.List.Sorted.{IsStrictlyIncreasing};
ghost use Rattle.core_occurrences.specs.Lists.{IsOccurrences, Occurs, cores_at, no_occurrences, grown, added, removed};

use crate::chains::{Node, push_free, push_heads};
use crate::linking::{link_all, unlink_all};
use crate::walk::CoreWalk;
use index_ring::Rings;
use std::alloc::{AllocError, Global};
use std::marker::Model;

/// For each variable, numbered from 1 on, the bodies of the cores that it occurs in, from 1 on, each once, in the
/// order in which these came. Sixteen bytes for each occurrence that there is room for, eight for each
/// variable, four for each body.
#[derive(Drop)]
pub struct BodyOccurrences {
    rings: Rings,
    nodes: Vec<Node>,
    heads: Vec<u32>,
    room: u32,
}

impl Model for BodyOccurrences {
    ghost use Rattle.core_occurrences.specs.Lists.{OccurrenceLists};

    ghost Value = { OccurrenceLists };

    ghost use Rattle.core_occurrences.specs.Kept.{IsKept, lists_of};

    ghost view = { λ s. lists_of s.rings s.nodes.items s.heads.items s.room };

    ghost invariant = { λ s. IsKept s.rings s.nodes.items s.heads.items s.room };
}

/// Whether there is a place for so many variables, bodies and nodes more.
fn fits(rings: &Rings, heads: usize, vars: u32, ids: u32, nodes: u32) -> bool
    ensures rings { IsTrue result
        → (length rings.now.lists + vars) + (rings.now.nodes + nodes) < 2 ^ 31 }
    ensures ids { IsTrue result → heads + ids ≤ 2 ^ 32 }
{
    let places = u64::from(rings.rings()) + u64::from(vars);
    places + (u64::from(rings.nodes()) + u64::from(nodes)) < 1 << 31
        && heads <= (1 << 32) - ids as usize
}

impl BodyOccurrences {
    /// Variables that occur in no body, with no body and no room.
    pub fn with(alloc: Global, vars: u32) -> Result<BodyOccurrences, AllocError>
        ensures lists { IfOk result (λ made. made ≡ no_occurrences vars) }
        ensures occurrences { IfOk result IsOccurrences }
    {
        let mut heads = Vec::new(alloc);
        heads.push(0)?;
        let mut made = BodyOccurrences {
            rings: Rings::with(alloc, 0, 0)?,
            nodes: Vec::new(alloc),
            heads,
            room: 0,
        };
        made.grow(vars, 0, 0)?;
        Ok(made)
    }

    /// Adds variables that occur in no body, bodies, and room for occurrences. It takes all the memory first. Where
    /// the variables and nodes together would reach 2^31, or the bodies 2^32, it is as if memory were wanting.
    pub fn grow(&mut self, vars: u32, ids: u32, nodes: u32) -> Result<(), AllocError>
        ensures lists { OnOk result (self.new ≡ grown self.old vars ids nodes) }
        ensures err { OnErr result (self.new ≡ self.old) }
        ensures occurrences { IsOccurrences self.new }
    {
        if !fits(&self.rings, self.heads.len(), vars, ids, nodes) {
            return Err(AllocError);
        }
        self.nodes.reserve(nodes as usize)?;
        self.heads.reserve(ids as usize)?;
        self.rings.grow(vars, nodes)?;
        push_heads(&mut self.heads, ids);
        push_free(&mut self.nodes, self.heads.as_mut_slice(), nodes);
        self.room += nodes;
        Ok(())
    }

    /// Adds an occurrence of each listed variable in a body, in constant time for each. It takes no memory.
    pub fn add(&mut self, id: u32, vars: &[u32])
        requires id { (1 ≤ id) × (id ≤ self.old.ids) }
        requires increasing { IsStrictlyIncreasing vars.now }
        requires vars { All (λ v. (1 ≤ v) × (v ≤ length self.old.lists)) vars.now }
        requires fresh { (v : ℕ) → Contains vars.now v → ¬ Occurs self.old v id }
        requires room { length vars.now ≤ self.old.room }
        ensures lists { self.new ≡ added self.old id vars.now }
        ensures occurrences { IsOccurrences self.new }
    {
        let nodes = self.nodes.as_mut_slice();
        link_all(&mut self.rings, nodes, self.heads.as_mut_slice(), id, vars);
        self.room -= vars.len() as u32;
    }

    /// Takes a body away, in constant time for each of its occurrences, for which there is room again. It takes
    /// no memory.
    pub fn remove(&mut self, id: u32)
        requires { (1 ≤ id) × (id ≤ self.old.ids) }
        ensures lists { self.new ≡ removed self.old id }
        ensures occurrences { IsOccurrences self.new }
    {
        let nodes = self.nodes.as_mut_slice();
        let gone = unlink_all(&mut self.rings, nodes, self.heads.as_mut_slice(), id);
        self.room += gone;
    }

    /// The bodies that a variable occurs in.
    pub fn cores_of(&self, var: u32) -> CoreWalk<'_>
        requires { (1 ≤ var) × (var ≤ length self.now.lists) }
        ensures lists { result ≡ cores_at self.now var }
        ensures occurrences { IsOccurrences self.now }
    {
        CoreWalk::of(&self.rings, self.nodes.as_slice(), var - 1)
    }

    /// Whether no variable occurs in a body. It takes constant time.
    pub fn is_absent(&self, id: u32) -> bool
        requires { (1 ≤ id) × (id ≤ self.now.ids) }
        ensures absent { IsTrue result ↔ ((v : ℕ) → ¬ Occurs self.now v id) }
        ensures occurrences { IsOccurrences self.now }
    {
        self.heads.as_slice()[id as usize] == 0
    }

    /// The number of variables.
    pub fn vars(&self) -> u32
        ensures count { result ≡ length self.now.lists }
        ensures occurrences { IsOccurrences self.now }
    {
        self.rings.rings()
    }

    /// The greatest body that there is a place for.
    pub fn ids(&self) -> u32
        ensures count { result ≡ self.now.ids }
        ensures occurrences { IsOccurrences self.now }
    {
        (self.heads.as_slice().len() - 1) as u32
    }

    /// How many occurrences more there is room for.
    pub fn room(&self) -> u32
        ensures count { result ≡ self.now.room }
        ensures occurrences { IsOccurrences self.now }
    {
        self.room
    }
}
