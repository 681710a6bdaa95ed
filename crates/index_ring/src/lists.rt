//! Rings of numbered nodes.

ghost use Rattle.std.specs.Prelude.{◌≡◌, ◌≢◌, ◌+◌, ◌^◌, ◌<◌, ◌↔◌, ℕ, length, IfOk};
ghost use Rattle.std.specs.Prelude.{OnOk, OnErr, IsTrue};
ghost use Rattle.index_ring.specs.Lists.{RingLists, IsRings, IsFree, Stands, list_of, no_lists, grown, pushed_back};
ghost use Rattle.index_ring.specs.Lists.{pushed_front, unlinked, spliced, first_in, after_in};

use crate::links::{FIRST_SENTINEL, Links, node_at, push_alone};
use crate::moves;
use std::alloc::{AllocError, Global};
use std::marker::Model;

/// Rings 0, 1 and so on, each a list of nodes out of 0, 1 and so on. A node stands in one list at most,
/// and there once; in none it is free. Eight bytes for each node and each ring.
#[derive(Drop)]
pub struct Rings {
    nodes: Vec<Links>,
    rings: Vec<Links>,
}

impl Model for Rings {
    ghost use Rattle.index_ring.specs.Lists.{RingLists};
    ghost use Rattle.index_ring.specs.Links.{IsSound, view_of};

    ghost Value = { RingLists };

    ghost view = { λ s. view_of s.nodes.items s.rings.items };

    ghost invariant = { λ s. IsSound s.nodes.items s.rings.items };
}

impl Rings {
    /// Empty rings and free nodes.
    pub fn with(alloc: Global, rings: u32, nodes: u32) -> Result<Rings, AllocError>
        requires { rings + nodes < 2 ^ 31 }
        ensures lists { IfOk result (λ made. made ≡ no_lists rings nodes) }
        ensures rings { IfOk result IsRings }
    {
        let mut made = Rings {
            nodes: Vec::new(alloc),
            rings: Vec::new(alloc),
        };
        made.grow(rings, nodes)?;
        Ok(made)
    }

    /// Adds empty rings and free nodes. It takes all the memory first, and the lists stay.
    pub fn grow(&mut self, rings: u32, nodes: u32) -> Result<(), AllocError>
        requires { (length self.old.lists + rings) + (self.old.nodes + nodes) < 2 ^ 31 }
        ensures lists { OnOk result (self.new ≡ grown self.old rings nodes) }
        ensures err { OnErr result (self.new ≡ self.old) }
        ensures rings { IsRings self.new }
    {
        self.nodes.reserve(nodes as usize)?;
        self.rings.reserve(rings as usize)?;
        push_alone(&mut self.nodes, 0, nodes);
        push_alone(&mut self.rings, FIRST_SENTINEL, rings);
        Ok(())
    }

    /// The number of rings.
    pub fn rings(&self) -> u32
        ensures count { result ≡ length self.now.lists }
        ensures rings { IsRings self.now }
    {
        self.rings.as_slice().len() as u32
    }

    /// The number of nodes.
    pub fn nodes(&self) -> u32
        ensures count { result ≡ self.now.nodes }
        ensures rings { IsRings self.now }
    {
        self.nodes.as_slice().len() as u32
    }

    /// Makes a free node the last of a ring.
    pub fn push_back(&mut self, ring: u32, node: u32)
        requires ring { ring < length self.old.lists }
        requires node { node < self.old.nodes }
        requires free { IsFree self.old node }
        ensures lists { self.new ≡ pushed_back self.old ring node }
        ensures rings { IsRings self.new }
    {
        let nodes = self.nodes.as_mut_slice();
        moves::push_back(nodes, self.rings.as_mut_slice(), ring, node);
    }

    /// Makes a free node the first of a ring.
    pub fn push_front(&mut self, ring: u32, node: u32)
        requires ring { ring < length self.old.lists }
        requires node { node < self.old.nodes }
        requires free { IsFree self.old node }
        ensures lists { self.new ≡ pushed_front self.old ring node }
        ensures rings { IsRings self.new }
    {
        let nodes = self.nodes.as_mut_slice();
        moves::push_front(nodes, self.rings.as_mut_slice(), ring, node);
    }

    /// Takes a node out of its ring.
    pub fn unlink(&mut self, node: u32)
        requires { ¬ IsFree self.old node }
        ensures lists { self.new ≡ unlinked self.old node }
        ensures rings { IsRings self.new }
    {
        let nodes = self.nodes.as_mut_slice();
        moves::unlink(nodes, self.rings.as_mut_slice(), node);
    }

    /// Puts the nodes of ring `from` behind those of ring `into`.
    pub fn splice(&mut self, from: u32, into: u32)
        requires from { from < length self.old.lists }
        requires into { into < length self.old.lists }
        requires apart { from ≢ into }
        ensures lists { self.new ≡ spliced self.old from into }
        ensures rings { IsRings self.new }
    {
        let nodes = self.nodes.as_mut_slice();
        moves::splice(nodes, self.rings.as_mut_slice(), from, into);
    }

    /// The first node of a ring, none where it is empty.
    pub fn first(&self, ring: u32) -> Option<u32>
        requires { ring < length self.now.lists }
        ensures node { result ≡ first_in (list_of self.now ring) }
        ensures rings { IsRings self.now }
    {
        node_at(self.rings.as_slice()[ring as usize].next)
    }

    /// The node behind another one in its ring, none where that is the last.
    pub fn after(&self, node: u32) -> Option<u32>
        requires { ¬ IsFree self.now node }
        ensures node { (r : ℕ) → Stands self.now r node
            → result ≡ after_in node (list_of self.now r) }
        ensures rings { IsRings self.now }
    {
        node_at(self.nodes.as_slice()[node as usize].next)
    }

    /// Whether a node stands in no ring.
    pub fn is_free(&self, node: u32) -> bool
        requires { node < self.now.nodes }
        ensures free { IsTrue result ↔ IsFree self.now node }
        ensures rings { IsRings self.now }
    {
        self.nodes.as_slice()[node as usize].next == node
    }
}
