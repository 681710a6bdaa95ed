//! The clause store of a search: clauses by reference, the literals that are true, and complete propagation.

ghost use Rattle.std.specs.Prelude.{◌≡◌, ◌≢◌, ◌+◌, ◌^◌, ◌<◌, ◌≤◌, ℕ, Some, None, false};
ghost use Rattle.std.specs.Prelude.{length, Contains, IfOk, OnOk, OnErr, IfSome, IfNone, MatchOption, IsNone, IsTrue};
ghost use Rattle.std.specs.Prelude.{◌↔◌};
ghost use Rattle.std.specs.Option.{OnSome};
ghost use Rattle.order_ints.specs.declared.literal.Lit.{Lit};
ghost use Rattle.order_ints.specs.Place.{LitBelow, InRange};
ghost use Rattle.literal_trail.specs.Trail.{entry_at, entry_of, value_in, truth_in, level_in, reason_in, up_to};
ghost use Rattle.literal_trail.specs.Trail.{cut_back, empty_trail};
ghost use Rattle.literal_trail.specs.Standing.{IsUnit, IsFalse};
ghost use Rattle.clause_arena.specs.Clauses.{clause_at, IsLive, lits_of, lit_in};
ghost use Rattle.clause_rings.specs.Clauses.{IsDb, IsApart, IsComplete, SameClauses, Follows, MayCome, AreApartIn};
ghost use Rattle.clause_rings.specs.Clauses.{HoldsCnf, HasRoomMore, IsUnused, with_clause, without_clause, assigned};

use crate::propagate::propagate;
use crate::watches::Watches;
use crate::{moves, room};
use clause_arena::Literals;
use literal_trail::Entry;
use order_ints::{Cnf, Lit};
use std::alloc::{AllocError, Global};
use std::marker::Model;

/// The reference of a clause. It stays until the clause is deleted, and may then be that of another one.
pub type ClauseRef = u32;

/// Clauses with ids, a trail with levels and reasons, and watches. At each moment, and for each level below the current
/// one, no live clause is false or unit under the trail's prefix of that level.
#[derive(Drop)]
pub struct ClauseDb {
    watches: Watches,
}

impl Model for ClauseDb {
    ghost use Rattle.clause_rings.specs.Clauses.{ClauseLists};
    ghost use Rattle.clause_rings.specs.Keeping.{Keeps, seen};

    ghost Value = { ClauseLists };

    ghost view = { λ s. seen s.watches };

    ghost invariant = { λ s. Keeps s.watches };
}

impl ClauseDb {
    /// The clauses of a CNF, with ids from 1 on, and no literal that is true yet. No further room is promised.
    pub fn with(alloc: Global, cnf: &Cnf) -> Result<ClauseDb, AllocError>
        requires vars { cnf.now.vars ≤ 2 ^ 27 }
        requires in_range { InRange cnf.now }
        requires apart { AreApartIn cnf.now }
        ensures clauses { IfOk result (λ made. HoldsCnf cnf.now made.clauses) }
        ensures trail { IfOk result (λ made. made.trail ≡ empty_trail cnf.now.vars) }
        ensures db { IfOk result (λ made. IsDb made.clauses made.trail) }
    {
        Ok(ClauseDb {
            watches: room::with(alloc, cnf)?,
        })
    }

    /// Makes room for so many literals and clauses to come, so that `add` takes no memory. Deleted clauses give theirs.
    /// Where the references would not fit, it is as if memory were wanting.
    pub fn reserve(&mut self, literals: usize, clauses: usize) -> Result<(), AllocError>
        ensures lits { OnOk result (literals ≤ self.new.spare_lits) }
        ensures room { OnOk result (clauses ≤ self.new.spare_clauses) }
        ensures wider { HasRoomMore self.old self.new }
        ensures err { OnErr result (self.new ≡ self.old) }
        ensures db { IsDb self.new.clauses self.new.trail }
    {
        room::reserve(&mut self.watches, literals, clauses)
    }

    /// Adds a clause, and answers its reference. It takes no memory, and time for each literal.
    pub fn add(&mut self, lits: &[Lit], id: u64) -> ClauseRef
        requires lits { length lits.now ≤ self.old.spare_lits }
        requires room { 0 < self.old.spare_clauses }
        requires in_range { (l : Lit) → Contains lits.now l → LitBelow (self.old.trail.vars + 1) l }
        requires apart { IsApart lits.now }
        requires may_come { MayCome self.old.trail lits.now }
        ensures clause { self.new ≡ with_clause self.old result id lits.now }
        ensures inside { result < length self.old.clauses }
        ensures fresh { (clause_at self.old.clauses result).live ≡ false }
        ensures db { IsDb self.new.clauses self.new.trail }
    {
        moves::add(&mut self.watches, lits, id)
    }

    /// Makes a literal true at the current level, for a clause that is unit for it, or begins a level with it. It takes
    /// constant time where propagation is complete, and no memory.
    pub fn assign(&mut self, l: Lit, reason: Option<ClauseRef>)
        requires lit { LitBelow (self.old.trail.vars + 1) l }
        requires free { entry_of self.old.trail.entries l.var ≡ None }
        requires reason { MatchOption reason (IsComplete self.old.trail.entries self.old.clauses)
            (λ c. IsLive self.old.clauses c × IsUnit self.old.trail.entries (lits_of self.old.clauses c) l) }
        ensures trail { self.new ≡ record self.old { trail = assigned self.old.trail l reason } }
        ensures db { IsDb self.new.clauses self.new.trail }
    {
        moves::assign(&mut self.watches, l, reason);
    }

    /// Makes each literal true for which a clause is unit, and goes on until no clause is false or unit, or one is
    /// false, which is answered. Only literals of clauses change places. It takes time for each clause that watches
    /// what has become false, and no memory.
    pub fn propagate(&mut self) -> Option<ClauseRef>
        ensures clauses { SameClauses self.old.clauses self.new.clauses }
        ensures trail { Follows self.new.clauses self.old.trail self.new.trail }
        ensures spare_lits { self.new.spare_lits ≡ self.old.spare_lits }
        ensures spare_clauses { self.new.spare_clauses ≡ self.old.spare_clauses }
        ensures found { IfSome result (λ c. IsLive self.new.clauses c
            × IsFalse self.new.trail.entries (lits_of self.new.clauses c)) }
        ensures none { IfNone result (IsComplete self.new.trail.entries self.new.clauses) }
        ensures db { IsDb self.new.clauses self.new.trail }
    {
        propagate(&mut self.watches)
    }

    /// Takes back the levels above one. It takes constant time for each literal that goes, and no memory.
    pub fn backjump(&mut self, level: u32)
        requires { level ≤ self.old.trail.level }
        ensures trail { self.new ≡ record self.old { trail = cut_back self.old.trail level } }
        ensures db { IsDb self.new.clauses self.new.trail }
    {
        moves::cut_back(&mut self.watches, level);
    }

    /// Deletes a clause that is no reason. It takes constant time, and no memory.
    pub fn delete(&mut self, c: ClauseRef)
        requires live { IsLive self.old.clauses c }
        requires unused { IsUnused self.old.trail.entries c }
        ensures clause { self.new ≡ without_clause self.old c }
        ensures db { IsDb self.new.clauses self.new.trail }
    {
        moves::delete(&mut self.watches, c);
    }

    /// The number of variables.
    pub fn vars(&self) -> u32
        ensures count { result ≡ self.now.trail.vars }
        ensures db { IsDb self.now.clauses self.now.trail }
    {
        self.watches.trail.vars()
    }

    /// The literals that are true, in the order in which they became so, with their levels and reasons.
    pub fn trail(&self) -> &[Entry]
        ensures entries { result.now ≡ self.now.trail.entries }
        ensures db { IsDb self.now.clauses self.now.trail }
    {
        self.watches.trail.entries()
    }

    /// The current level.
    pub fn level(&self) -> u32
        ensures level { result ≡ self.now.trail.level }
        ensures db { IsDb self.now.clauses self.now.trail }
    {
        self.watches.trail.level()
    }

    /// Whether a literal is true, none where it is free.
    pub fn truth(&self, l: Lit) -> Option<bool>
        requires { l.var ≤ self.now.trail.vars }
        ensures { result ≡ truth_in self.now.trail.entries l }
    {
        self.watches.trail.truth(l)
    }

    /// Whether a variable is true, none where it is free.
    pub fn value(&self, var: u32) -> Option<bool>
        requires { var ≤ self.now.trail.vars }
        ensures { result ≡ value_in self.now.trail.entries var }
    {
        self.watches.trail.value(var)
    }

    /// The level at which a variable got its value, none where it is free.
    pub fn level_of(&self, var: u32) -> Option<u32>
        requires { var ≤ self.now.trail.vars }
        ensures { result ≡ level_in self.now.trail.entries var }
    {
        self.watches.trail.level_of(var)
    }

    /// The clause that gave a variable its value, none where the variable is free or was assigned without a reason.
    pub fn reason(&self, var: u32) -> Option<ClauseRef>
        requires { var ≤ self.now.trail.vars }
        ensures { result ≡ reason_in self.now.trail.entries var }
    {
        self.watches.trail.reason_of(var)
    }

    /// The number of entries up to the end of a level.
    pub fn end_of_level(&self, level: u32) -> u32
        requires { level ≤ self.now.trail.level }
        ensures { result ≡ length (up_to level self.now.trail.entries) }
    {
        self.watches.trail.end_of_level(level)
    }

    /// The number of literals of a clause.
    pub fn len(&self, c: ClauseRef) -> u32
        requires { IsLive self.now.clauses c }
        ensures { result ≡ length (lits_of self.now.clauses c) }
    {
        self.watches.arena.len(c)
    }

    /// The literal at a place of a clause, counted from 0.
    pub fn lit_at(&self, c: ClauseRef, place: u32) -> Lit
        requires live { IsLive self.now.clauses c }
        requires place { place < length (lits_of self.now.clauses c) }
        ensures { result ≡ lit_in (lits_of self.now.clauses c) place }
    {
        self.watches.arena.lit_at(c, place)
    }

    /// The literals of a clause, as a list that is lent: each is unpacked where it is looked at.
    pub fn lits(&self, c: ClauseRef) -> Literals<'_>
        requires { IsLive self.now.clauses c }
        ensures { result ≡ lits_of self.now.clauses c }
    {
        self.watches.arena.lits(c)
    }

    /// The id of a clause.
    pub fn id(&self, c: ClauseRef) -> u64
        requires { IsLive self.now.clauses c }
        ensures { result ≡ (clause_at self.now.clauses c).id }
    {
        self.watches.arena.id(c)
    }

    /// How many clauses there is room for.
    pub fn spare_clauses(&self) -> u32
        ensures { result ≡ self.now.spare_clauses }
    {
        self.watches.arena.spare_clauses()
    }

    /// The number of entries of the trail.
    pub fn height(&self) -> u32
        ensures count { result ≡ length self.now.trail.entries }
        ensures db { IsDb self.now.clauses self.now.trail }
    {
        self.watches.trail.len()
    }

    /// The entry at a place of the trail.
    pub fn entry_at(&self, place: u32) -> Entry
        requires { place < length self.now.trail.entries }
        ensures { result ≡ entry_at self.now.trail.entries place }
    {
        self.watches.trail.entry_at(place)
    }

    /// The entry of a variable, none where it is free.
    pub fn entry_of(&self, var: u32) -> Option<Entry>
        requires { var ≤ self.now.trail.vars }
        ensures { result ≡ entry_of self.now.trail.entries var }
    {
        self.watches.trail.entry_of(var)
    }

    /// The place of a variable's entry on the trail, none where it is free.
    pub fn place_of(&self, var: u32) -> Option<u32>
        requires { var ≤ self.now.trail.vars }
        ensures { MatchOption result (entry_of self.now.trail.entries var ≡ None)
            (λ j. (j < length self.now.trail.entries)
            × (entry_of self.now.trail.entries var ≡ Some (entry_at self.now.trail.entries j))) }
    {
        self.watches.trail.place_of(var)
    }

    /// The number of references, in use or not.
    pub fn references(&self) -> u32
        ensures { result ≡ length self.now.clauses }
    {
        self.watches.arena.references()
    }

    /// Whether a reference is in use.
    pub fn is_live(&self, c: ClauseRef) -> bool
        ensures { IsTrue result ↔ IsLive self.now.clauses c }
    {
        self.watches.arena.is_live(c)
    }

    /// Whether no literal became true for a clause. It looks at each literal of the clause.
    pub fn is_unused(&self, c: ClauseRef) -> bool
        requires { IsLive self.now.clauses c }
        ensures { IsTrue result ↔ IsUnused self.now.trail.entries c }
    {
        moves::is_unused(&self.watches, c)
    }
}
