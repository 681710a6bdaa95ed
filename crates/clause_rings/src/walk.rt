//! Propagation: the clauses that watch a literal which has become false are looked at, each by the node that stands for
//! the watch. A blocker, a literal of the clause that is kept beside the node, spares the look where it is true: as in
//! MiniSat (Niklas Sörensson and Niklas Eén), and for longer clauses by Geoffrey Chu, Aaron Harwood and Peter Stuckey
//! (2008).

ghost use Rattle.std.specs.Prelude.{◌≡◌, ◌+◌, ◌/◌, ◌<◌, length, slice_index, IfSome, IfNone, IsTrue};
ghost use Rattle.std.specs.Prelude.{Some, true, ◌↔◌, ◌≤◌, ◌≢◌, Contains};
ghost use Rattle.std.specs.Bool.{OnTrue, OnFalse};
ghost use Rattle.literal_trail.specs.Trail.{truth_in};
ghost use Rattle.clause_arena.specs.Clauses.{lits_of};
ghost use Rattle.clause_arena.specs.Codes.{code_of};
ghost use Rattle.index_ring.specs.Lists.{Stands};
ghost use Rattle.clause_rings.specs.Keeping.{Keeps, seen, Advances, head_ring, IsConflict, IsVisited, AreMet};
ghost use Rattle.clause_rings.specs.Keeping.{IsBlocker};

use crate::looks::{Look, look_at};
use crate::watches::{TWO, Watches, marked, rewatch};
use clause_arena::{code_of, lit_of};
use literal_trail::LiteralTrail;
use order_ints::Lit;

/// Looks at the clause of a node whose watched literal the entry at the head makes false, and tells whether each
/// literal is false. Else the watch moves to another literal, or the other watched literal is true, perhaps by this
/// clause.
fn look(watches: &mut Watches, node: u32) -> bool
    requires kept { Keeps watches.old }
    requires head { watches.old.head < length watches.old.trail.entries }
    requires node { Stands watches.old.rings (head_ring watches.old) node }
    ensures kept { Keeps watches.new }
    ensures advances { Advances (seen watches.old) (seen watches.new) }
    ensures head { watches.new.head ≡ watches.old.head }
    ensures visited { OnFalse result (IsVisited watches.old watches.new node) }
    ensures conflict { OnTrue result (IsConflict watches.new (node / 2)) }
{
    let c = node / 2;
    let place = node % 2;
    let len = watches.arena.len(c);
    match look_at(&watches.arena.lits(c), len, &watches.trail, place) {
        Look::Holds(other) => {
            watches.blockers[node as usize] = marked(other, len as usize);
            false
        }
        Look::Open(k, other) => {
            rewatch(&mut watches.arena, &mut watches.rings, c, place, k);
            watches.blockers[node as usize] = code_of(other);
            false
        }
        Look::Forces(other) => {
            watches.trail.imply(other, c);
            watches.blockers[node as usize] = marked(other, len as usize);
            false
        }
        Look::Fails => true,
    }
}

/// The blocker of a node in the ring that is walked, if there is a node.
fn blocker_of(watches: &Watches, at: Option<u32>) -> u32
    requires kept { Keeps watches.now }
    requires head { watches.now.head < length watches.now.trail.entries }
    requires node { IfSome at (λ v. Stands watches.now.rings (head_ring watches.now) v) }
    ensures { IsBlocker watches.now at result }
{
    match at {
        Some(node) => watches.blockers[node as usize],
        None => 0,
    }
}

/// Whether a literal is true.
fn is_true(trail: &LiteralTrail, l: Lit) -> bool
    requires { l.var ≤ trail.now.vars }
    ensures { IsTrue result ↔ (truth_in trail.now.entries l ≡ Some true) }
{
    matches!(trail.truth(l), Some(true))
}

/// Makes the other literal of a clause of two true, of which the entry at the head makes one false, and tells whether
/// the other one is false too. Neither the clause nor its place is read.
fn meet_two(watches: &mut Watches, node: u32, other: Lit) -> bool
    requires kept { Keeps watches.old }
    requires head { watches.old.head < length watches.old.trail.entries }
    requires node { Stands watches.old.rings (head_ring watches.old) node }
    requires two { length (lits_of watches.old.arena.clauses (node / 2)) ≡ 2 }
    requires other { Contains (lits_of watches.old.arena.clauses (node / 2)) other }
    requires apart { code_of other ≢ head_ring watches.old }
    requires not_true { truth_in watches.old.trail.entries other ≢ Some true }
    ensures kept { Keeps watches.new }
    ensures advances { Advances (seen watches.old) (seen watches.new) }
    ensures head { watches.new.head ≡ watches.old.head }
    ensures visited { OnFalse result (IsVisited watches.old watches.new node) }
    ensures conflict { OnTrue result (IsConflict watches.new (node / 2)) }
{
    if watches.trail.truth(other).is_some() {
        return true;
    }
    watches.trail.imply(other, node / 2);
    false
}

/// Looks at the clause of a node, unless its blocker is true or the other literal of two, and tells whether each
/// literal of it is false.
fn meet(watches: &mut Watches, node: u32, blocker: u32, ring: u32) -> bool
    requires kept { Keeps watches.old }
    requires head { watches.old.head < length watches.old.trail.entries }
    requires node { Stands watches.old.rings (head_ring watches.old) node }
    requires blocker { IsBlocker watches.old (Some node) blocker }
    requires ring { head_ring watches.old ≡ ring }
    ensures kept { Keeps watches.new }
    ensures advances { Advances (seen watches.old) (seen watches.new) }
    ensures head { watches.new.head ≡ watches.old.head }
    ensures visited { OnFalse result (IsVisited watches.old watches.new node) }
    ensures conflict { OnTrue result (IsConflict watches.new (node / 2)) }
{
    let other = lit_of(blocker % TWO);
    if is_true(&watches.trail, other) {
        return false;
    }
    if blocker >= TWO && code_of(other) != ring {
        return meet_two(watches, node, other);
    }
    look(watches, node)
}

/// Looks at each clause that watches the literal which the entry at the head makes false, and answers one that is
/// false. The next node and its blocker are loaded before this one is worked on.
pub fn walk(watches: &mut Watches) -> Option<u32>
    requires kept { Keeps watches.old }
    requires head { watches.old.head < length watches.old.trail.entries }
    ensures kept { Keeps watches.new }
    ensures advances { Advances (seen watches.old) (seen watches.new) }
    ensures head { watches.new.head ≡ watches.old.head }
    ensures found { IfSome result (IsConflict watches.new) }
    ensures none { IfNone result (AreMet watches.new) }
{
    let ring = code_of(watches.trail.entry_at(watches.head).lit.negated());
    let mut at = watches.rings.first(ring);
    let mut blocker = blocker_of(watches, at);
    while let Some(node) = at {
        at = watches.rings.after(node);
        let ahead = blocker_of(watches, at);
        if meet(watches, node, blocker, ring) {
            return Some(node / 2);
        }
        blocker = ahead;
    }
    None
}
