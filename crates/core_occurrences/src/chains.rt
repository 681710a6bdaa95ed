//! The owner of each node, and the chain of the nodes of each owner.

ghost use Rattle.std.specs.Prelude.{◌≡◌, ◌≢◌, ◌+◌, ◌^◌, ◌<◌, ◌≤◌, ◌++◌, length};
ghost use Rattle.std.specs.Prelude.{replicate, vec_len, vec_capacity, MatchOption};
ghost use Rattle.core_occurrences.specs.Chains.{AreChains, IsPassed, OwnsNone, IsFreed};

use std::mem::size_of;

/// A node beside its links in a ring.
#[derive(Clone, Copy)]
pub struct Node {
    /// The body that it belongs to, 0 where it is free.
    pub owner: u32,
    /// One more than the next node of the same owner, 0 at the end.
    pub next: u32,
}

const _: () = prove!(size_of::<Node>() == 8);

/// Hands the first node of one owner to another, if there is one. It takes constant time.
pub fn pass(nodes: &mut [Node], heads: &mut [u32], from: u32, to: u32) -> Option<u32>
    requires chains { AreChains nodes.old heads.old }
    requires from { from < length heads.old }
    requires to { to < length heads.old }
    requires apart { from ≢ to }
    ensures passed { MatchOption result (OwnsNone nodes.old nodes.new from)
        (IsPassed nodes.old nodes.new from to) }
    ensures chains { AreChains nodes.new heads.new }
{
    let head = heads[from as usize];
    if head == 0 {
        return None;
    }
    let node = head - 1;
    heads[from as usize] = nodes[node as usize].next;
    nodes[node as usize] = Node {
        owner: to,
        next: heads[to as usize],
    };
    heads[to as usize] = head;
    Some(node)
}

/// Adds owners without nodes.
pub fn push_heads(heads: &mut Vec<u32>, more: u32)
    requires { vec_len heads.old + more ≤ vec_capacity heads.old }
    ensures { heads.new.items ≡ heads.old.items ++ replicate more 0 }
{
    for k in 0..more {
        prove!(k < more);
        heads.push(0).unwrap();
    }
}

/// Adds free nodes.
pub fn push_free(nodes: &mut Vec<Node>, heads: &mut [u32], more: u32)
    requires chains { AreChains nodes.old.items heads.old }
    requires room { vec_len nodes.old + more ≤ vec_capacity nodes.old }
    requires small { length nodes.old.items + more < 2 ^ 31 }
    requires heads { 0 < length heads.old }
    ensures freed { IsFreed nodes.old.items nodes.new.items more }
    ensures chains { AreChains nodes.new.items heads.new }
{
    let first = nodes.len() as u32;
    for k in 0..more {
        let next = heads[0];
        nodes.push(Node { owner: 0, next }).unwrap();
        heads[0] = first + k + 1;
    }
}
