//! Looking at the literals of a clause.

ghost use Rattle.std.specs.Prelude.{◌≡◌, ◌≢◌, ◌<◌, ◌≤◌, ℕ, Some, false, length, MatchOption};
ghost use Rattle.std.specs.Prelude.{Contains};
ghost use Rattle.order_ints.specs.declared.literal.Lit.{Lit};
ghost use Rattle.literal_trail.specs.Trail.{truth_in};
ghost use Rattle.clause_arena.specs.Clauses.{lit_in};
ghost use Rattle.clause_rings.specs.Looks.{AreFalseFrom, IsOpenPlace, Shows, IsBestFrom, rank_of};

use crate::watches::is_false;
use clause_arena::Literals;
use literal_trail::LiteralTrail;
use order_ints::Lit;

/// What a clause shows of which a watched literal has become false.
#[derive(Clone, Copy)]
pub enum Look {
    /// The other watched literal is true.
    Holds(Lit),
    /// The literal at this place is not watched and not false; beside it the other watched literal.
    Open(u32, Lit),
    /// The other watched literal is free, and each other literal is false.
    Forces(Lit),
    /// Each literal is false.
    Fails,
}

/// The first place behind the watched literals whose literal isn't false.
fn first_open(lits: &Literals<'_>, len: u32, trail: &LiteralTrail) -> Option<u32>
    requires len { len ≡ length lits.now }
    requires in_range { (l : Lit) → Contains lits.now l → l.var ≤ trail.now.vars }
    ensures { MatchOption result (AreFalseFrom trail.now.entries lits.now 2)
        (IsOpenPlace trail.now.entries lits.now) }
{
    for k in 2..len {
        if !is_false(trail, lits.at(k)) {
            return Some(k);
        }
    }
    None
}

/// Looks at a clause whose watched literal at this place is false: first at the other watched one.
pub fn look_at(lits: &Literals<'_>, len: u32, trail: &LiteralTrail, place: u32) -> Look
    requires len { len ≡ length lits.now }
    requires two { 2 ≤ len }
    requires in_range { (l : Lit) → Contains lits.now l → l.var ≤ trail.now.vars }
    requires place { place < 2 }
    requires is_false { truth_in trail.now.entries (lit_in lits.now place) ≡ Some false }
    ensures { Shows trail.now.entries lits.now result }
{
    let other = lits.at(1 - place);
    let truth = trail.truth(other);
    if let Some(true) = truth {
        return Look::Holds(other);
    }
    match first_open(lits, len, trail) {
        Some(k) => Look::Open(k, other),
        None if truth.is_none() => Look::Forces(other),
        None => Look::Fails,
    }
}

/// The level at which a literal became false, and a number above all levels where it isn't.
fn rank(trail: &LiteralTrail, l: Lit) -> u32
    requires { l.var ≤ trail.now.vars }
    ensures { result ≡ rank_of trail.now.entries l }
{
    match trail.entry_of(l.var) {
        Some(entry) if entry.lit.positive != l.positive => entry.level,
        _ => u32::MAX,
    }
}

/// A place, from one on, whose literal is of the highest rank of these.
pub fn best_place(lits: &Literals<'_>, len: u32, trail: &LiteralTrail, from: u32) -> u32
    requires len { len ≡ length lits.now }
    requires from { from < len }
    requires in_range { (l : Lit) → Contains lits.now l → l.var ≤ trail.now.vars }
    ensures { IsBestFrom trail.now.entries lits.now from result }
{
    let mut best = from;
    let mut highest = rank(trail, lits.at(from));
    for k in from + 1..len {
        let this = rank(trail, lits.at(k));
        if highest < this {
            best = k;
            highest = this;
        }
    }
    best
}
