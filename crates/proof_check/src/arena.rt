//! The clauses of a proof, in one flat list of literals with a table of places.
//!
//! A literal takes four bytes and a clause 24. Ids ascend and may skip, so a clause is found by halving the table.
//! A clause that is deleted stays, marked, since it is still known; nothing is ever moved.

ghost use Rattle.std.specs.Prelude.{◌≡◌, ◌≢◌, ◌≤◌, ◌<◌, ◌+◌, ◌^◌, ◌++◌, ◌∷◌};
ghost use Rattle.std.specs.Prelude.{[], ℕ, None, Some, true, false, is_some, IsTrue, map, length, vec_len};
ghost use Rattle.std.specs.Prelude.{vec_capacity, slice_index, slice_range, IfOk, OnOk, OnErr, IfSome, IfNone};
ghost use Rattle.order_ints.specs.Place.{ClauseBelow};
ghost use Rattle.std.specs.List.{list_any};
ghost use Rattle.order_ints.specs.OrderedClauses as ordered;
ghost use Rattle.proof_check.specs.Named.{clause_at, literals_of};
ghost use Rattle.proof_check.specs.New.{lies_within};
ghost use Rattle.proof_check.specs.Known as known;
ghost use Rattle.proof_check.specs.Arena as arena;
ghost use Rattle.proof_check.specs.Arena.{AreWithin, Ascend, kept_in, clauses_in, place_ids, kept_ids, last_from};
ghost use Rattle.proof_check.specs.Arena.{live_in, nth_kept, life_to, IsLiveAt};

use order_ints::Lit;
use std::alloc::{AllocError, Global};
use std::marker::Model;
use std::mem::size_of;

/// Where a clause stands in the flat list, and whether it lives.
#[derive(Clone, Copy)]
pub(crate) struct Place {
    id: u64,
    start: usize,
    len: u32,
    live: bool,
}

const _: () = prove!(size_of::<Place>() <= 24);

/// Clauses by their ids.
#[derive(Drop)]
pub(crate) struct Arena {
    codes: Vec<u32>,
    places: Vec<Place>,
}

impl Model for Arena {
    ghost use Rattle.std.specs.Prelude.{List};
    ghost use Rattle.proof_check.specs.Arena.{Kept, kept_in, IsArena};

    ghost Value = { List Kept };

    ghost view = { λ s. kept_in s.codes.items s.places.items };

    ghost invariant = { λ s. IsArena s.codes.items s.places.items };
}

/// A literal in one number.
fn packed(lit: Lit) -> u32
    requires { lit.var < 2 ^ 31 }
    ensures { result ≡ arena.packed lit }
{
    if lit.positive() {
        2 * lit.var() + 1
    } else {
        2 * lit.var()
    }
}

/// The literal of such a number.
pub(crate) fn unpacked(code: u32) -> Lit
    ensures { result ≡ arena.unpacked code }
{
    Lit::of(code / 2, code % 2 == 1)
}

/// Puts literals behind those that are there, in room that was made.
fn push_codes(codes: &mut Vec<u32>, lits: &[Lit])
    requires below { ClauseBelow (2 ^ 27 + 1) lits.now }
    requires room { vec_len codes.old + length lits.now ≤ vec_capacity codes.old }
    ensures { codes.new.items ≡ codes.old.items ++ map arena.packed lits.now }
{
    for lit in lits {
        codes.push_reserved(packed(*lit));
    }
}

/// Where in a table the clause of an id stands.
fn find_place(places: &[Place], id: u64) -> Option<usize>
    requires { Ascend 0 (place_ids places.now) }
    ensures found { IfSome result (λ i. (i < length places.now) × (slice_index (place_ids places.now) i ≡ id)) }
    ensures none { IfNone result ((i : ℕ) → i < length places.now → slice_index (place_ids places.now) i ≢ id) }
{
    let mut low = 0;
    let mut high = places.len();
    while low < high {
        let middle = low + (high - low) / 2;
        let at = places[middle].id;
        if at == id {
            return Some(middle);
        }
        if at < id {
            low = middle + 1;
        } else {
            high = middle;
        }
    }
    None
}

/// The literals at a place.
fn part(codes: &[u32], place: Place) -> &[u32]
    requires { place.start + place.len ≤ length codes.now }
    ensures { result.now ≡ slice_range codes.now place.start (place.start + place.len) }
{
    &codes[place.start..place.start + place.len as usize]
}

/// The id of the last place, or 0.
fn last_id(places: &[Place]) -> u64
    ensures { result ≡ last_from 0 (place_ids places.now) }
{
    if places.is_empty() {
        0
    } else {
        places[places.len() - 1].id
    }
}

/// Whether a literal is that of one of the codes.
fn has_code(codes: &[u32], lit: Lit) -> bool
    ensures { result ≡ ordered.has_lit lit (map arena.unpacked codes.now) }
{
    for code in codes {
        if same_lit(lit, unpacked(*code)) {
            return true;
        }
    }
    false
}

/// Whether a literal is one of those.
fn has_lit(lits: &[Lit], lit: Lit) -> bool
    ensures { result ≡ ordered.has_lit lit lits.now }
{
    for other in lits {
        if same_lit(lit, *other) {
            return true;
        }
    }
    false
}

/// Whether two literals are the same.
fn same_lit(l: Lit, m: Lit) -> bool
    ensures { result ≡ ordered.same_lit l m }
{
    l.var() == m.var() && l.positive() == m.positive()
}

/// Whether each literal is that of one of the codes.
fn lies_within_codes(lits: &[Lit], codes: &[u32]) -> bool
    ensures { result ≡ lies_within lits.now (map arena.unpacked codes.now) }
{
    for lit in lits {
        if !has_code(codes, *lit) {
            return false;
        }
    }
    true
}

/// Whether the literal of each code is one of those.
fn codes_lie_within(codes: &[u32], lits: &[Lit]) -> bool
    ensures { result ≡ lies_within (map arena.unpacked codes.now) lits.now }
{
    for code in codes {
        if !has_lit(lits, unpacked(*code)) {
            return false;
        }
    }
    true
}

/// Whether the codes are those of exactly these literals.
fn same_literals(lits: &[Lit], codes: &[u32]) -> bool
    ensures { result ≡ known.same_literals lits.now (map arena.unpacked codes.now) }
{
    if codes_lie_within(codes, lits) {
        lies_within_codes(lits, codes)
    } else {
        false
    }
}

/// Whether a place has exactly these literals.
fn has_clause(codes: &[u32], places: &[Place], lits: &[Lit]) -> bool
    requires { AreWithin codes.now places.now }
    ensures { result ≡ list_any (known.same_literals lits.now)
        (literals_of (clauses_in (kept_in codes.now places.now))) }
{
    for place in places {
        if same_literals(lits, part(codes, *place)) {
            return true;
        }
    }
    false
}

impl Arena {
    /// No clause.
    pub(crate) fn new(alloc: Global) -> Arena
        ensures { result ≡ [] }
    {
        Arena {
            codes: Vec::new(alloc),
            places: Vec::new(alloc),
        }
    }

    /// How many clauses there are, also those that live no more.
    pub(crate) fn len(&self) -> usize
        ensures { result ≡ length self.now }
    {
        self.places.len()
    }

    /// The last id, or 0.
    pub(crate) fn last_id(&self) -> u64
        ensures { result ≡ last_from 0 (kept_ids self.now) }
    {
        last_id(&self.places)
    }

    /// Adds a clause that lives. It takes all the memory first; more than 2^32 - 1 literals answer want of it.
    pub(crate) fn push(&mut self, id: u64, lits: &[Lit]) -> Result<(), AllocError>
        requires last { last_from 0 (kept_ids self.old) < id }
        requires below { ClauseBelow (2 ^ 27 + 1) lits.now }
        ensures ok { OnOk result (self.new ≡ self.old
            ++ record { clause = record { id = id; lits = lits.now }; live = true } ∷ []) }
        ensures err { OnErr result (self.new ≡ self.old) }
    {
        let Ok(len) = u32::try_from(lits.len()) else {
            return Err(AllocError);
        };
        self.codes.reserve(lits.len())?;
        self.places.reserve(1)?;
        let start = self.codes.len();
        push_codes(&mut self.codes, lits);
        self.places.push_reserved(Place {
            id,
            start,
            len,
            live: true,
        });
        Ok(())
    }

    /// Where in the table the live clause of an id stands.
    pub(crate) fn find_live(&self, id: u64) -> Option<usize>
        ensures place { IfSome result (λ i. i < length self.now) }
        ensures clause { IfSome result (λ i. clause_at (live_in self.now) id ≡ Some (nth_kept self.now i).clause.lits) }
        ensures none { IfNone result (clause_at (live_in self.now) id ≡ None) }
    {
        match find_place(&self.places, id) {
            None => None,
            Some(i) => { if self.places[i].live { Some(i) } else { None } }
        }
    }

    /// The literals of the clause at a place of the table, packed.
    pub(crate) fn codes_of(&self, i: usize) -> &[u32]
        requires { i < length self.now }
        ensures { map arena.unpacked result.now ≡ (nth_kept self.now i).clause.lits }
    {
        part(&self.codes, self.places[i])
    }

    /// Lets the clause of an id live, or not, if there is one.
    pub(crate) fn set_life(&mut self, id: u64, live: bool)
        ensures { self.new ≡ life_to live id self.old }
    {
        match find_place(&self.places, id) {
            None => {}
            Some(i) => self.places[i].live = live,
        }
    }

    /// Lets the clause of an id live no more, if it lives, and says whether it did.
    pub(crate) fn kill(&mut self, id: u64) -> bool
        ensures live { result ≡ is_some (clause_at (live_in self.old) id) }
        ensures killed { IsTrue result → self.new ≡ life_to false id self.old }
        ensures was { IsTrue result → IsLiveAt id self.old }
        ensures none { result ≡ false → self.new ≡ self.old }
    {
        match find_place(&self.places, id) {
            None => false,
            Some(i) => {
                let was = self.places[i].live;
                self.places[i].live = false;
                was
            }
        }
    }

    /// Whether a clause has exactly these literals, whether it lives or not.
    pub(crate) fn has_clause(&self, lits: &[Lit]) -> bool
        ensures { result ≡ list_any (known.same_literals lits.now) (literals_of (clauses_in self.now)) }
    {
        has_clause(&self.codes, &self.places, lits)
    }
}
