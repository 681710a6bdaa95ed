//! The walk over the bodies at a variable.

ghost use Rattle.std.specs.Prelude.{◌≡◌, ◌<◌, length, map};
ghost use Rattle.std.specs.Iterator.{YieldsFirst, item_count};
ghost use Rattle.index_ring.specs.Lists.{list_of};
ghost use Rattle.core_occurrences.specs.Chains.{owner_of};
ghost use Rattle.core_occurrences.specs.Held.{IsHeld};

use crate::chains::Node;
use index_ring::Rings;
use std::marker::Model;

/// What is left of a walk over the bodies at a variable, which takes no memory, and constant time for each. A contract
/// sees it as the list of the bodies that are left.
#[derive(Drop)]
pub struct CoreWalk<'a> {
    rings: &'a Rings,
    nodes: &'a [Node],
    ring: u32,
    next: Option<u32>,
}

impl<'a> Model for CoreWalk<'a> {
    ghost use Rattle.std.specs.Prelude.{List, ℕ, map};

    ghost Value = { List ℕ };

    ghost use Rattle.index_ring.specs.Lists.{list_of};
    ghost use Rattle.core_occurrences.specs.Chains.{owner_of};
    ghost use Rattle.core_occurrences.specs.Kept.{IsWalking, left_of};

    ghost view = { λ s. map (owner_of s.nodes.now) (left_of s.next (list_of s.rings.now s.ring)) };

    ghost invariant = { λ s. IsWalking s.nodes.now s.rings.now s.ring s.next };
}

impl<'a> CoreWalk<'a> {
    /// The walk over the owners of the nodes of a ring.
    pub fn of(rings: &'a Rings, nodes: &'a [Node], ring: u32) -> CoreWalk<'a>
        requires held { IsHeld nodes.now rings.now }
        requires ring { ring < length rings.now.lists }
        ensures { result ≡ map (owner_of nodes.now) (list_of rings.now ring) }
    {
        CoreWalk {
            rings,
            nodes,
            ring,
            next: rings.first(ring),
        }
    }
}

impl<'a> Iterator for CoreWalk<'a> {
    type Item = u32;

    ghost next_gives = { YieldsFirst (λ walk. walk) };

    ghost remaining = { item_count (λ walk. walk) };

    fn next(&mut self) -> Option<u32> {
        let node = self.next?;
        self.next = self.rings.after(node);
        Some(self.nodes[node as usize].owner)
    }
}
