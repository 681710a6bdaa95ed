//! The arena: clauses by reference, with their literals packed one behind another, as in MiniSat (Niklas Eén and
//! Niklas Sörensson, 2003). Where a clause's literals stand is in a table, so that a reference stays when the literals
//! move; when they have to make room they slide down over those of deleted clauses, in place.

ghost use Rattle.std.specs.Prelude.{max, ◌≡◌, ◌+◌, ◌^◌, ◌<◌, ◌≤◌, ◌↔◌, IsTrue, false};
ghost use Rattle.std.specs.Prelude.{length, IfOk, OnOk, OnErr};
ghost use Rattle.std.specs.List.{All};
ghost use Rattle.clause_arena.specs.Clauses.{IsArena, IsLive, IsWider, no_clauses, added, deleted, swapped, clause_at};
ghost use Rattle.clause_arena.specs.Clauses.{lits_of, lit_in};

use crate::codes::{Span, lit_of, part, push_codes};
use crate::literals::Literals;
use crate::references::{MOST_REFERENCES, add_references, hand_over, make_room};
use crate::sliding::slide_down;
use index_ring::Rings;
use order_ints::Lit;
use std::alloc::{AllocError, Global};
use std::marker::Model;

/// Clauses by reference. Four bytes for each literal, 25 for each clause.
#[derive(Drop)]
pub struct ClauseArena {
    codes: Vec<u32>,
    spans: Vec<Span>,
    ids: Vec<u64>,
    live: Vec<bool>,
    order: Rings,
    spare: u32,
    dead: u32,
    wasted: u32,
}

impl Model for ClauseArena {
    ghost use Rattle.std.specs.Prelude.{vec_capacity};
    ghost use Rattle.clause_arena.specs.Clauses.{Arena};
    ghost use Rattle.clause_arena.specs.Layout.{IsKept, AreMarked, arena_of};

    ghost Value = { Arena };

    ghost view = { λ s. arena_of s.codes.items s.spans.items s.ids.items s.order s.spare s.dead };

    ghost invariant = { λ s.
        IsKept s.codes.items s.spans.items s.ids.items s.order s.spare s.dead (vec_capacity s.codes)
        × AreMarked s.live.items s.order };
}

impl ClauseArena {
    /// No clause, and no room.
    pub fn with(alloc: Global) -> Result<ClauseArena, AllocError>
        ensures clauses { IfOk result (λ made. made ≡ no_clauses) }
        ensures arena { IfOk result IsArena }
    {
        Ok(ClauseArena {
            codes: Vec::new(alloc),
            spans: Vec::new(alloc),
            ids: Vec::new(alloc),
            live: Vec::new(alloc),
            order: Rings::with(alloc, 2, 0)?,
            spare: 0,
            dead: 0,
            wasted: 0,
        })
    }

    /// The number of references that there is room for, each of which is below it.
    pub fn references(&self) -> u32
        ensures count { result ≡ length self.now.clauses }
        ensures arena { IsArena self.now }
    {
        self.order.nodes()
    }

    /// How many clauses there is room for.
    pub fn spare_clauses(&self) -> u32
        ensures count { result ≡ self.now.spare_clauses }
        ensures arena { IsArena self.now }
    {
        self.dead
    }

    /// Whether a reference is in use. It takes constant time.
    pub fn is_live(&self, c: u32) -> bool
        ensures { IsTrue result ↔ IsLive self.now.clauses c }
    {
        (c as usize) < self.live.as_slice().len() && self.live.as_slice()[c as usize]
    }

    /// The number of a clause's literals. It takes constant time.
    pub fn len(&self, c: u32) -> u32
        requires { IsLive self.now.clauses c }
        ensures { result ≡ length (lits_of self.now.clauses c) }
    {
        self.spans.as_slice()[c as usize].len
    }

    /// The literal at a place of a clause, counted from 0. It takes constant time.
    pub fn lit_at(&self, c: u32, place: u32) -> Lit
        requires live { IsLive self.now.clauses c }
        requires place { place < length (lits_of self.now.clauses c) }
        ensures { result ≡ lit_in (lits_of self.now.clauses c) place }
    {
        let start = self.spans.as_slice()[c as usize].start;
        lit_of(self.codes.as_slice()[start as usize + place as usize])
    }

    /// The literals of a clause. It takes constant time, and so does each of them.
    pub fn lits(&self, c: u32) -> Literals<'_>
        requires { IsLive self.now.clauses c }
        ensures { result ≡ lits_of self.now.clauses c }
    {
        let Span { start, len } = self.spans.as_slice()[c as usize];
        Literals::of(part(self.codes.as_slice(), start, len))
    }

    /// The id of a clause. It takes constant time.
    pub fn id(&self, c: u32) -> u64
        requires { IsLive self.now.clauses c }
        ensures { result ≡ (clause_at self.now.clauses c).id }
    {
        self.ids.as_slice()[c as usize]
    }

    /// Lets two literals of a clause change places. It takes constant time.
    pub fn swap(&mut self, c: u32, i: u32, j: u32)
        requires live { IsLive self.old.clauses c }
        requires first { i < length (lits_of self.old.clauses c) }
        requires second { j < length (lits_of self.old.clauses c) }
        ensures clauses { self.new ≡ swapped self.old c i j }
        ensures arena { IsArena self.new }
    {
        let start = self.spans.as_slice()[c as usize].start as usize;
        let codes = self.codes.as_mut_slice();
        codes.swap(start + i as usize, start + j as usize);
    }

    /// Adds a clause, and answers its reference. It takes no memory, and time for each literal.
    pub fn add(&mut self, lits: &[Lit], id: u64) -> u32
        requires small { All (λ l. l.var < 2 ^ 31) lits.now }
        requires lits { length lits.now ≤ self.old.spare_lits }
        requires clause { 0 < self.old.spare_clauses }
        ensures clauses { self.new ≡ added self.old result id lits.now }
        ensures inside { result < length self.old.clauses }
        ensures fresh { (clause_at self.old.clauses result).live ≡ false }
        ensures arena { IsArena self.new }
    {
        let start = self.codes.as_slice().len() as u32;
        let c = self.order.first(1).unwrap();
        hand_over(&mut self.order, c, 0);
        let len = lits.len() as u32;
        push_codes(&mut self.codes, lits);
        self.spans.as_mut_slice()[c as usize] = Span { start, len };
        self.ids.as_mut_slice()[c as usize] = id;
        self.live.as_mut_slice()[c as usize] = true;
        self.spare -= len;
        self.dead -= 1;
        c
    }

    /// Deletes a clause, whose reference is free for another one then. It takes constant time.
    pub fn delete(&mut self, c: u32)
        requires { IsLive self.old.clauses c }
        ensures clauses { self.new ≡ deleted self.old c }
        ensures arena { IsArena self.new }
    {
        hand_over(&mut self.order, c, 1);
        self.live.as_mut_slice()[c as usize] = false;
        self.dead += 1;
        self.wasted = self
            .wasted
            .saturating_add(self.spans.as_slice()[c as usize].len);
    }

    /// Lets the literals of clauses that are there slide down over those of deleted ones. It takes time for each
    /// literal.
    fn pack(&mut self)
        ensures { self.new ≡ self.old }
    {
        let spans = self.spans.as_mut_slice();
        let most = spans.len() as u32;
        let end = slide_down(self.codes.as_mut_slice(), spans, &self.order, most);
        self.codes.truncate(end as usize);
        self.wasted = 0;
    }

    /// Packs the literals if there is no room for so many more and deleted clauses have a quarter of the arena, so that
    /// packing takes constant time for each literal that came.
    fn pack_for(&mut self, literals: usize)
        ensures { self.new ≡ self.old }
    {
        if (self.spare as usize) < literals && self.wasted as usize >= self.codes.len() / 4 {
            self.pack();
        }
    }

    /// Makes room for so many literals and clauses to come, first where deleted clauses stood. Where the references
    /// would reach 2^31 - 2, or the literals 2^32, it is as if memory were wanting. It takes constant time where there
    /// is room already, and else, taken together over all calls, time for each literal and each clause that comes.
    pub fn reserve(&mut self, literals: usize, clauses: usize) -> Result<(), AllocError>
        ensures wider { OnOk result (IsWider self.old self.new) }
        ensures lits { OnOk result (literals ≤ self.new.spare_lits) }
        ensures clauses { OnOk result (self.new.spare_clauses ≡ max self.old.spare_clauses clauses) }
        ensures err { OnErr result (self.new ≡ self.old) }
        ensures arena { IsArena self.new }
    {
        self.pack_for(literals);
        let more = clauses.saturating_sub(self.dead as usize);
        if more >= MOST_REFERENCES - self.spans.len() {
            return Err(AllocError);
        }
        make_room(&mut self.codes, literals)?;
        let (spans, ids) = (&mut self.spans, &mut self.ids);
        add_references(&mut self.order, spans, ids, &mut self.live, more as u32)?;
        self.dead += more as u32;
        let most = self.codes.capacity().min(u32::MAX as usize);
        self.spare = (most - self.codes.len()) as u32;
        Ok(())
    }
}
