//! What a clause store keeps, and how a watch moves.
//!
//! Each clause of two or more literals is watched by its first two: as long as neither is false, the clause is neither
//! false nor unit, and nothing has to be done for it. Only where a watched literal becomes false is the clause looked
//! at, and a jump back changes no watch. The two watched literals are those of Matthew Moskewicz, Conor Madigan, Ying
//! Zhao, Lintao Zhang and Sharad Malik (Chaff, 2001). The clauses that watch a literal are a ring of nodes, two for
//! each clause, so that a watch moves, and a clause comes and goes, in constant time and without memory.

ghost use Rattle.std.specs.Prelude.{◌≡◌, ◌+◌, ◌*◌, ◌<◌, ◌≤◌, ◌^◌, ◌↔◌, IsTrue, Some};
ghost use Rattle.std.specs.Prelude.{false, length};
ghost use Rattle.order_ints.specs.Place.{LitBelow};
ghost use Rattle.literal_trail.specs.Trail.{truth_in};
ghost use Rattle.clause_arena.specs.Clauses.{IsLive, swapped, lits_of, lit_in};
ghost use Rattle.clause_arena.specs.Codes.{code_of};
ghost use Rattle.index_ring.specs.Lists.{IsRings, IsFree, pushed_back, unlinked};
ghost use Rattle.clause_rings.specs.Watches.{marked};

use clause_arena::{ClauseArena, code_of};
use index_ring::Rings;
use literal_trail::LiteralTrail;
use order_ints::Lit;

/// The clauses, the trail, the rings of watches, a blocker for each node, and how many entries of the trail are worked
/// off.
#[derive(Drop)]
pub struct Watches {
    /// The clauses.
    pub arena: ClauseArena,
    /// The literals that are true.
    pub trail: LiteralTrail,
    /// Ring 0 has the clauses that wait to be watched; ring 2v + s has the watches of the literal of variable v.
    pub rings: Rings,
    /// For each node the number of a literal of its clause: where it is true, the clause need not be looked at. With a
    /// mark it is of a clause of two literals, which need not be looked at either.
    pub blockers: Vec<u32>,
    /// How many entries of the trail are worked off.
    pub head: u32,
}

/// The mark at the blocker of a clause of two literals.
pub const TWO: u32 = 1 << 31;

/// The number of a literal, with a mark where it is to be the blocker of a clause of two literals.
pub fn marked(l: Lit, len: usize) -> u32
    requires { l.var < 2 ^ 30 }
    ensures { result ≡ marked l len }
{
    if len == 2 {
        code_of(l) + TWO
    } else {
        code_of(l)
    }
}

/// Whether a literal is false.
pub fn is_false(trail: &LiteralTrail, l: Lit) -> bool
    requires { l.var ≤ trail.now.vars }
    ensures { IsTrue result ↔ (truth_in trail.now.entries l ≡ Some false) }
{
    matches!(trail.truth(l), Some(false))
}

/// Lets a clause watch the literal at another place: the two literals change places, and the node goes to the end of
/// the ring of the new one.
pub fn rewatch(arena: &mut ClauseArena, rings: &mut Rings, c: u32, place: u32, other: u32)
    requires made { IsRings rings.old }
    requires live { IsLive arena.old.clauses c }
    requires place { place < length (lits_of arena.old.clauses c) }
    requires other { other < length (lits_of arena.old.clauses c) }
    requires in_range { LitBelow (2 ^ 27 + 1) (lit_in (lits_of arena.old.clauses c) other) }
    requires ring { code_of (lit_in (lits_of arena.old.clauses c) other)
        < length rings.old.lists }
    requires node { ¬ IsFree rings.old (2 * c + place) }
    requires node_small { 2 * c + place < rings.old.nodes }
    ensures arena { arena.new ≡ swapped arena.old c place other }
    ensures rings { rings.new
        ≡ pushed_back (unlinked rings.old (2 * c + place)) (code_of (lit_in (lits_of arena.old.clauses c) other))
        (2 * c + place) }
    ensures made { IsRings rings.new }
{
    let l = arena.lit_at(c, other);
    arena.swap(c, place, other);
    let node = 2 * c + place;
    rings.unlink(node);
    rings.push_back(code_of(l), node);
}
