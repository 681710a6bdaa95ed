//! Places and the links between them. A place is a node or the sentinel of a ring.

ghost use Rattle.std.specs.Prelude.{◌≡◌, ◌+◌, ◌^◌, ◌<◌, ◌≤◌, ◌++◌, length, nat_lt};
ghost use Rattle.std.specs.Prelude.{if◌then◌else◌, vec_len, vec_capacity};
ghost use Rattle.index_ring.specs.Links.{sentinel, alone, IsPlace, NextSet, PreviousSet, Joined};

/// The place of the sentinel of ring 0. The places below are nodes.
pub const FIRST_SENTINEL: u32 = 1 << 31;

/// The places beside a place.
#[derive(Clone, Copy)]
pub struct Links {
    /// The place behind.
    pub next: u32,
    /// The place before.
    pub previous: u32,
}

/// The place of a ring's sentinel.
pub fn sentinel(ring: u32) -> u32
    requires { ring < 2 ^ 31 }
    ensures { result ≡ sentinel ring }
{
    FIRST_SENTINEL + ring
}

/// The node at a place, unless a sentinel is there.
pub fn node_at(place: u32) -> Option<u32>
    ensures { result ≡ (if nat_lt place (2 ^ 31) then Some place else None) }
{
    (place < FIRST_SENTINEL).then_some(place)
}

/// Writes which place is behind another.
fn set_next(nodes: &mut [Links], rings: &mut [Links], place: u32, to: u32)
    requires { IsPlace nodes.old rings.old place }
    ensures { NextSet nodes.old rings.old nodes.new rings.new place to }
{
    if place < FIRST_SENTINEL {
        nodes[place as usize].next = to;
    } else {
        rings[(place - FIRST_SENTINEL) as usize].next = to;
    }
}

/// Writes which place is before another.
fn set_previous(nodes: &mut [Links], rings: &mut [Links], place: u32, to: u32)
    requires { IsPlace nodes.old rings.old place }
    ensures { PreviousSet nodes.old rings.old nodes.new rings.new place to }
{
    if place < FIRST_SENTINEL {
        nodes[place as usize].previous = to;
    } else {
        rings[(place - FIRST_SENTINEL) as usize].previous = to;
    }
}

/// Makes two places neighbours.
pub fn join(nodes: &mut [Links], rings: &mut [Links], from: u32, to: u32)
    requires from { IsPlace nodes.old rings.old from }
    requires to { IsPlace nodes.old rings.old to }
    ensures { Joined nodes.old rings.old nodes.new rings.new from to }
{
    set_next(nodes, rings, from, to);
    set_previous(nodes, rings, to, from);
}

/// Adds places, each its own neighbour, behind places from `first` on.
pub fn push_alone(links: &mut Vec<Links>, first: u32, more: u32)
    requires room { vec_len links.old + more ≤ vec_capacity links.old }
    requires fits { first + length links.old.items + more < 2 ^ 32 }
    ensures { links.new.items
        ≡ links.old.items ++ alone (first + length links.old.items) more }
{
    let from = first + links.len() as u32;
    for k in 0..more {
        let place = from + k;
        links
            .push(Links {
                next: place,
                previous: place,
            })
            .unwrap();
    }
}
