//! Clauses that have come and wait to be watched. Such a clause may be false, unit or true already, by any level; so
//! the literals that became false last, or are not false, come to the places that are watched.

ghost use Rattle.std.specs.Prelude.{◌≡◌, ◌+◌, ◌*◌, ◌/◌, ◌<◌, ◌≤◌, [], length, IfSome};
ghost use Rattle.std.specs.Prelude.{IfNone};
ghost use Rattle.std.specs.Bool.{OnTrue, OnFalse};
ghost use Rattle.literal_trail.specs.Trail.{IsTrail};
ghost use Rattle.literal_trail.specs.Standing.{IsFalse};
ghost use Rattle.clause_arena.specs.Clauses.{IsLive, lits_of};
ghost use Rattle.index_ring.specs.Lists.{IsRings, Stands, list_of, without};
ghost use Rattle.clause_rings.specs.Clauses.{IsDb};
ghost use Rattle.clause_rings.specs.Keeping.{Keeps, seen, Advances, IsConflict};
ghost use Rattle.clause_rings.specs.Attaching.{AreRanked, IsReordered, IsAttached, IsForced, IsAlone, HasSecond};
ghost use Rattle.clause_rings.specs.Attaching.{IsLinkable, IsLinked};

use crate::looks::best_place;
use crate::watches::{Watches, is_false};
use clause_arena::{ClauseArena, code_of};
use index_ring::Rings;
use literal_trail::LiteralTrail;

/// Brings the two literals of the highest ranks to the first two places.
fn order(arena: &mut ClauseArena, trail: &LiteralTrail, c: u32)
    requires live { IsLive arena.old.clauses c }
    requires some { 1 ≤ length (lits_of arena.old.clauses c) }
    requires db { IsDb arena.old.clauses trail.now }
    ensures reordered { IsReordered arena.old arena.new c }
    ensures ranked { AreRanked trail.now.entries (lits_of arena.new.clauses c) }
{
    let len = arena.len(c);
    let first = best_place(&arena.lits(c), len, trail, 0);
    arena.swap(c, 0, first);
    if 1 < len {
        let second = best_place(&arena.lits(c), len, trail, 1);
        arena.swap(c, 1, second);
    }
}

/// Whether there is no second literal that isn't false.
fn is_alone(arena: &ClauseArena, trail: &LiteralTrail, c: u32) -> bool
    requires live { IsLive arena.now.clauses c }
    requires some { 1 ≤ length (lits_of arena.now.clauses c) }
    requires db { IsDb arena.now.clauses trail.now }
    ensures yes { OnTrue result (IsAlone trail.now.entries (lits_of arena.now.clauses c)) }
    ensures no { OnFalse result (HasSecond trail.now.entries (lits_of arena.now.clauses c)) }
{
    arena.len(c) == 1 || is_false(trail, arena.lit_at(c, 1))
}

/// Makes the first literal true where the others are false, and tells whether it is false itself.
fn force(arena: &ClauseArena, trail: &mut LiteralTrail, c: u32) -> bool
    requires live { IsLive arena.now.clauses c }
    requires some { 1 ≤ length (lits_of arena.now.clauses c) }
    requires db { IsDb arena.now.clauses trail.old }
    requires ranked { AreRanked trail.old.entries (lits_of arena.now.clauses c) }
    ensures forced { IsForced arena.now.clauses c trail.old trail.new }
    ensures trail { IsTrail trail.new }
    ensures attached { OnFalse result (IsAttached trail.new.entries (lits_of arena.now.clauses c)) }
    ensures fails { OnTrue result (IsFalse trail.new.entries (lits_of arena.now.clauses c)) }
{
    let first = arena.lit_at(c, 0);
    match trail.truth(first) {
        Some(truth) => !truth,
        None => {
            if is_alone(arena, trail, c) {
                trail.imply(first, c);
            }
            false
        }
    }
}

/// Lets the nodes of a clause that waits watch its first two literals.
fn link(arena: &ClauseArena, rings: &mut Rings, c: u32)
    requires live { IsLive arena.now.clauses c }
    requires some { 1 ≤ length (lits_of arena.now.clauses c) }
    requires linkable { IsLinkable (lits_of arena.now.clauses c) rings.old c }
    ensures linked { IsLinked (lits_of arena.now.clauses c) rings.old rings.new c }
    ensures made { IsRings rings.new }
{
    let node = 2 * c;
    let len = arena.len(c);
    let first = arena.lit_at(c, 0);
    rings.unlink(node);
    if 1 < len {
        rings.push_back(code_of(first), node);
        rings.push_back(code_of(arena.lit_at(c, 1)), node + 1);
    }
}

/// Lets a clause that waits be watched, and tells whether each of its literals is false: then it goes on waiting.
fn attach(watches: &mut Watches, c: u32) -> bool
    requires kept { Keeps watches.old }
    requires waits { Stands watches.old.rings 0 (2 * c) }
    ensures kept { Keeps watches.new }
    ensures advances { Advances (seen watches.old) (seen watches.new) }
    ensures head { watches.new.head ≡ watches.old.head }
    ensures attached { OnFalse result (list_of watches.new.rings 0
        ≡ without (2 * c) (list_of watches.old.rings 0)) }
    ensures fails { OnTrue result (IsConflict watches.new c) }
{
    if watches.arena.len(c) == 0 {
        return true;
    }
    order(&mut watches.arena, &watches.trail, c);
    if force(&watches.arena, &mut watches.trail, c) {
        return true;
    }
    link(&watches.arena, &mut watches.rings, c);
    false
}

/// Lets each clause that waits be watched, and answers one that is false. It takes time for each literal of those that
/// waited.
pub fn attach_all(watches: &mut Watches) -> Option<u32>
    requires kept { Keeps watches.old }
    ensures kept { Keeps watches.new }
    ensures advances { Advances (seen watches.old) (seen watches.new) }
    ensures head { watches.new.head ≡ watches.old.head }
    ensures none { IfNone result (list_of watches.new.rings 0 ≡ []) }
    ensures found { IfSome result (IsConflict watches.new) }
{
    while let Some(node) = watches.rings.first(0) {
        if attach(watches, node / 2) {
            return Some(node / 2);
        }
    }
    None
}
