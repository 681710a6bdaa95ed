//! Occurrences that come and go: nodes that get an owner and a ring, and nodes that lose both.

ghost use Rattle.std.specs.Prelude.{◌≡◌, ◌+◌, ◌<◌, ◌≤◌, length, map};
ghost use Rattle.std.specs.Bool.{OnTrue, OnFalse};
ghost use Rattle.std.specs.List.{All};
ghost use Rattle.std.specs.List.Sorted.{IsStrictlyIncreasing};
ghost use Rattle.index_ring.specs.Lists.{times, times_in_all, without};
ghost use Rattle.core_occurrences.specs.Lists.{with_id};
ghost use Rattle.core_occurrences.specs.Chains.{AreChains, owners};
ghost use Rattle.core_occurrences.specs.Held.{IsHeld, IsLinked, IsUnlinked, HasNone, ids_in};

use crate::chains::{Node, pass};
use index_ring::Rings;

/// Makes a free node of a body the last of the ring of a variable.
fn link(rings: &mut Rings, nodes: &mut [Node], heads: &mut [u32], id: u32, var: u32)
    requires chains { AreChains nodes.old heads.old }
    requires held { IsHeld nodes.old rings.old }
    requires id { (1 ≤ id) × (id < length heads.old) }
    requires var { (1 ≤ var) × (var ≤ length rings.old.lists) }
    requires room { 1 ≤ times 0 (owners nodes.old) }
    ensures linked { IsLinked nodes.old rings.old nodes.new rings.new id var }
    ensures chains { AreChains nodes.new heads.new }
{
    if let Some(node) = pass(nodes, heads, 0, id) {
        rings.push_back(var - 1, node);
    }
}

/// Takes one node of a body out of its ring, if the body has one, which is free then.
fn unlink(rings: &mut Rings, nodes: &mut [Node], heads: &mut [u32], id: u32) -> bool
    requires chains { AreChains nodes.old heads.old }
    requires held { IsHeld nodes.old rings.old }
    requires id { (1 ≤ id) × (id < length heads.old) }
    ensures unlinked { OnTrue result (IsUnlinked nodes.old rings.old nodes.new rings.new id) }
    ensures none { OnFalse result (HasNone nodes.old rings.old nodes.new rings.new id) }
    ensures chains { AreChains nodes.new heads.new }
{
    match pass(nodes, heads, id, 0) {
        Some(node) => {
            rings.unlink(node);
            true
        }
        None => false,
    }
}

/// Adds an occurrence of each listed variable in a body. It takes constant time for each.
pub fn link_all(rings: &mut Rings, nodes: &mut [Node], heads: &mut [u32], id: u32, vars: &[u32])
    requires chains { AreChains nodes.old heads.old }
    requires held { IsHeld nodes.old rings.old }
    requires id { (1 ≤ id) × (id < length heads.old) }
    requires increasing { IsStrictlyIncreasing vars.now }
    requires vars { All (λ v. (1 ≤ v) × (v ≤ length rings.old.lists)) vars.now }
    requires room { length vars.now ≤ times 0 (owners nodes.old) }
    ensures ids { ids_in nodes.new rings.new ≡ with_id id vars.now 1 (ids_in nodes.old rings.old) }
    ensures held { IsHeld nodes.new rings.new }
    ensures free { times 0 (owners nodes.new) + length vars.now ≡ times 0 (owners nodes.old) }
    ensures chains { AreChains nodes.new heads.new }
{
    for var in vars {
        link(rings, nodes, heads, id, *var);
    }
}

/// Takes away all occurrences of a body, in constant time for each, and tells how many these were.
pub fn unlink_all(rings: &mut Rings, nodes: &mut [Node], heads: &mut [u32], id: u32) -> u32
    requires chains { AreChains nodes.old heads.old }
    requires held { IsHeld nodes.old rings.old }
    requires id { (1 ≤ id) × (id < length heads.old) }
    ensures ids { ids_in nodes.new rings.new ≡ map (without id) (ids_in nodes.old rings.old) }
    ensures held { IsHeld nodes.new rings.new }
    ensures count { result ≡ times_in_all id (ids_in nodes.old rings.old) }
    ensures free { times 0 (owners nodes.new) ≡ times 0 (owners nodes.old) + result }
    ensures chains { AreChains nodes.new heads.new }
{
    let mut count = 0;
    while unlink(rings, nodes, heads, id) {
        count += 1;
    }
    count
}
