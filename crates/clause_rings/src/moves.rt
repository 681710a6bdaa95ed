//! The moves of a search that are no propagation: an assignment, a jump back, a clause that comes or goes, more room.

ghost use Rattle.std.specs.Prelude.{◌≡◌, ◌≢◌, ◌+◌, ◌*◌, ◌^◌, ◌<◌, ◌≤◌, ℕ, None};
ghost use Rattle.std.specs.Prelude.{◌↔◌, false, length, Contains, IsTrue, MatchOption, vec_len};
ghost use Rattle.std.specs.List.{All};
ghost use Rattle.order_ints.specs.declared.literal.Lit.{Lit};
ghost use Rattle.order_ints.specs.Place.{LitBelow};
ghost use Rattle.literal_trail.specs.Trail.{entry_of, cut_back};
ghost use Rattle.literal_trail.specs.Standing.{IsUnit};
ghost use Rattle.clause_arena.specs.Clauses.{IsLive, clause_at, lits_of, added, deleted};
ghost use Rattle.index_ring.specs.Lists.{IsRings, IsFree, Stands};
ghost use Rattle.clause_rings.specs.Clauses.{IsComplete, IsApart, MayCome, IsUnused, assigned};
ghost use Rattle.clause_rings.specs.Keeping.{Keeps, head_ring};
ghost use Rattle.clause_rings.specs.Moves.{IsParked, IsReleased, AreSet};
ghost use Rattle.clause_rings.specs.Watches.{Blocks};

use crate::watches::{Watches, marked};
use clause_arena::code_of;
use index_ring::Rings;
use order_ints::Lit;

/// Takes the levels above one back.
pub fn cut_back(watches: &mut Watches, level: u32)
    requires kept { Keeps watches.old }
    requires level { level ≤ watches.old.trail.level }
    ensures kept { Keeps watches.new }
    ensures arena { watches.new.arena ≡ watches.old.arena }
    ensures trail { watches.new.trail ≡ cut_back watches.old.trail level }
{
    watches.trail.cut_back(level);
    watches.head = watches.head.min(watches.trail.len());
}

/// Lets a watched clause wait.
fn park(rings: &mut Rings, c: u32)
    requires made { IsRings rings.old }
    requires ring { 0 < length rings.old.lists }
    requires first { ¬ IsFree rings.old (2 * c) }
    requires second { ¬ IsFree rings.old (2 * c + 1) }
    requires node { 2 * c + 1 < rings.old.nodes }
    ensures parked { IsParked rings.old rings.new c }
    ensures made { IsRings rings.new }
{
    let node = 2 * c;
    rings.unlink(node);
    rings.unlink(node + 1);
    rings.push_back(0, node);
}

/// Lets each clause wait that watches the literal which the entry at the head makes false.
fn park_ring(watches: &mut Watches)
    requires kept { Keeps watches.old }
    requires head { watches.old.head < length watches.old.trail.entries }
    ensures kept { Keeps watches.new }
    ensures arena { watches.new.arena ≡ watches.old.arena }
    ensures trail { watches.new.trail ≡ watches.old.trail }
    ensures head { watches.new.head ≡ watches.old.head }
    ensures none { (v : ℕ) → ¬ Stands watches.new.rings (head_ring watches.new) v }
{
    let ring = code_of(watches.trail.entry_at(watches.head).lit.negated());
    while let Some(node) = watches.rings.first(ring) {
        park(&mut watches.rings, node / 2);
    }
}

/// Lets each clause wait that watches a literal which has become false and is not worked off. Where propagation is
/// complete, there is none.
fn park_all(watches: &mut Watches)
    requires kept { Keeps watches.old }
    ensures kept { Keeps watches.new }
    ensures arena { watches.new.arena ≡ watches.old.arena }
    ensures trail { watches.new.trail ≡ watches.old.trail }
    ensures head { watches.new.head ≡ length watches.new.trail.entries }
{
    'entries: while watches.head < watches.trail.len() {
        park_ring(watches);
        watches.head += 1;
    }
}

/// Makes a literal true for a clause, or begins a level with it.
pub fn assign(watches: &mut Watches, l: Lit, reason: Option<u32>)
    requires kept { Keeps watches.old }
    requires lit { LitBelow (watches.old.trail.vars + 1) l }
    requires free { entry_of watches.old.trail.entries l.var ≡ None }
    requires reason { MatchOption reason (IsComplete watches.old.trail.entries watches.old.arena.clauses)
        (λ c. IsLive watches.old.arena.clauses c
        × IsUnit watches.old.trail.entries (lits_of watches.old.arena.clauses c) l) }
    ensures kept { Keeps watches.new }
    ensures arena { watches.new.arena ≡ watches.old.arena }
    ensures trail { watches.new.trail ≡ assigned watches.old.trail l reason }
{
    match reason {
        Some(c) => watches.trail.imply(l, c),
        None => {
            park_all(watches);
            watches.trail.choose(l);
        }
    }
}

/// The literal at a place of a clause, as a blocker of it.
fn blocker_at(lits: &[Lit], place: usize) -> u32
    requires place { place < length lits.now }
    requires small { All (λ l. l.var < 2 ^ 30) lits.now }
    ensures { Blocks lits.now result }
{
    marked(lits[place], lits.len())
}

/// Gives both nodes of a clause a blocker, if it has a literal: of two literals each node gets the other one's.
fn block(blockers: &mut Vec<u32>, lits: &[Lit], node: u32)
    requires room { node + 1 < vec_len blockers.old }
    requires small { All (λ l. l.var < 2 ^ 30) lits.now }
    ensures { AreSet blockers.old.items blockers.new.items node lits.now }
{
    if lits.is_empty() {
        return;
    }
    let second = if lits.len() == 2 { 1 } else { 0 };
    blockers[node as usize] = blocker_at(lits, second);
    blockers[node as usize + 1] = blocker_at(lits, 0);
}

/// Adds a clause, which waits to be watched.
pub fn add(watches: &mut Watches, lits: &[Lit], id: u64) -> u32
    requires kept { Keeps watches.old }
    requires lits { length lits.now ≤ watches.old.arena.spare_lits }
    requires room { 0 < watches.old.arena.spare_clauses }
    requires in_range { (l : Lit) → Contains lits.now l → LitBelow (watches.old.trail.vars + 1) l }
    requires apart { IsApart lits.now }
    requires may_come { MayCome watches.old.trail lits.now }
    ensures kept { Keeps watches.new }
    ensures arena { watches.new.arena ≡ added watches.old.arena result id lits.now }
    ensures trail { watches.new.trail ≡ watches.old.trail }
    ensures inside { result < length watches.old.arena.clauses }
    ensures fresh { (clause_at watches.old.arena.clauses result).live ≡ false }
{
    let c = watches.arena.add(lits, id);
    let node = 2 * c;
    block(&mut watches.blockers, lits, node);
    watches.rings.push_back(0, node);
    c
}

/// Takes a node out of its ring, if it stands in one.
fn release(rings: &mut Rings, node: u32)
    requires made { IsRings rings.old }
    requires node { node < rings.old.nodes }
    ensures released { IsReleased rings.old rings.new node }
    ensures made { IsRings rings.new }
{
    if !rings.is_free(node) {
        rings.unlink(node);
    }
}

/// Whether no literal became true for a clause.
pub fn is_unused(watches: &Watches, c: u32) -> bool
    requires kept { Keeps watches.now }
    requires live { IsLive watches.now.arena.clauses c }
    ensures { IsTrue result ↔ IsUnused watches.now.trail.entries c }
{
    for place in 0..watches.arena.len(c) {
        if watches.trail.reason_of(watches.arena.lit_at(c, place).var) == Some(c) {
            return false;
        }
    }
    true
}

/// Deletes a clause that is no reason.
pub fn delete(watches: &mut Watches, c: u32)
    requires kept { Keeps watches.old }
    requires live { IsLive watches.old.arena.clauses c }
    requires unused { IsUnused watches.old.trail.entries c }
    ensures kept { Keeps watches.new }
    ensures arena { watches.new.arena ≡ deleted watches.old.arena c }
    ensures trail { watches.new.trail ≡ watches.old.trail }
{
    release(&mut watches.rings, 2 * c);
    release(&mut watches.rings, 2 * c + 1);
    watches.arena.delete(c);
}
