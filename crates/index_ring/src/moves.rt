//! The moves, over the links of nodes and of sentinels.

ghost use Rattle.std.specs.Prelude.{◌≡◌, ◌≢◌, ◌<◌, length};
ghost use Rattle.index_ring.specs.Lists.{IsFree, pushed_back, pushed_front, unlinked, spliced};
ghost use Rattle.index_ring.specs.Links.{view_of, IsSound};

use crate::links::{Links, join, sentinel};

/// Makes a free node the last of a ring.
pub fn push_back(nodes: &mut [Links], rings: &mut [Links], ring: u32, node: u32)
    requires sound { IsSound nodes.old rings.old }
    requires ring { ring < length rings.old }
    requires node { node < length nodes.old }
    requires free { IsFree (view_of nodes.old rings.old) node }
    ensures view { view_of nodes.new rings.new
        ≡ pushed_back (view_of nodes.old rings.old) ring node }
    ensures sound { IsSound nodes.new rings.new }
{
    let last = rings[ring as usize].previous;
    let end = sentinel(ring);
    join(nodes, rings, last, node);
    join(nodes, rings, node, end);
}

/// Makes a free node the first of a ring.
pub fn push_front(nodes: &mut [Links], rings: &mut [Links], ring: u32, node: u32)
    requires sound { IsSound nodes.old rings.old }
    requires ring { ring < length rings.old }
    requires node { node < length nodes.old }
    requires free { IsFree (view_of nodes.old rings.old) node }
    ensures view { view_of nodes.new rings.new
        ≡ pushed_front (view_of nodes.old rings.old) ring node }
    ensures sound { IsSound nodes.new rings.new }
{
    let first = rings[ring as usize].next;
    let start = sentinel(ring);
    join(nodes, rings, node, first);
    join(nodes, rings, start, node);
}

/// Takes a node out of its ring.
pub fn unlink(nodes: &mut [Links], rings: &mut [Links], node: u32)
    requires sound { IsSound nodes.old rings.old }
    requires stands { ¬ IsFree (view_of nodes.old rings.old) node }
    ensures view { view_of nodes.new rings.new ≡ unlinked (view_of nodes.old rings.old) node }
    ensures sound { IsSound nodes.new rings.new }
{
    let Links { next, previous } = nodes[node as usize];
    join(nodes, rings, previous, next);
    join(nodes, rings, node, node);
}

/// Puts the nodes of one ring behind those of another.
pub fn splice(nodes: &mut [Links], rings: &mut [Links], from: u32, into: u32)
    requires sound { IsSound nodes.old rings.old }
    requires from { from < length rings.old }
    requires into { into < length rings.old }
    requires apart { from ≢ into }
    ensures view { view_of nodes.new rings.new
        ≡ spliced (view_of nodes.old rings.old) from into }
    ensures sound { IsSound nodes.new rings.new }
{
    let Links { next, previous } = rings[from as usize];
    let emptied = sentinel(from);
    if next != emptied {
        let last = rings[into as usize].previous;
        let end = sentinel(into);
        join(nodes, rings, last, next);
        join(nodes, rings, previous, end);
        join(nodes, rings, emptied, emptied);
    }
}
