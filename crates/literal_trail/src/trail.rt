//! The trail: the literals that a search has made true, the oldest first, each with its level and its reason. Levels,
//! reasons and the jump back over many of them at once are those of João Marques-Silva and Karem Sakallah (GRASP,
//! 1996); that a trail keeps its literals in one array beside tables by literal and by variable is as in MiniSat
//! (Niklas Eén and Niklas Sörensson, 2003).

ghost use Rattle.std.specs.Prelude.{◌≡◌, ◌+◌, ◌^◌, ◌<◌, ◌≤◌, ◌↔◌, true, false, Some};
ghost use Rattle.std.specs.Prelude.{None, length, IfOk, IsTrue, MatchOption};
ghost use Rattle.order_ints.specs.Place.{LitBelow};
ghost use Rattle.literal_trail.specs.Trail.{IsTrail, empty_trail, implied, chosen, cut_back, entry_at, entry_of};
ghost use Rattle.literal_trail.specs.Trail.{value_in, truth_in, level_in, reason_in, up_to};

use crate::entry::Entry;
use crate::tables::{Value, add_entry, code_of, keep_front, push_free, push_no_place};
use order_ints::Lit;
use std::alloc::{AllocError, Global};
use std::marker::Model;

/// Variables from 1 on, and the literals of theirs that are true. The moves take no memory, since there is room for
/// every variable from the start: 30 bytes for each.
#[derive(Drop)]
pub struct LiteralTrail {
    vars: u32,
    entries: Vec<Entry>,
    values: Vec<Value>,
    places: Vec<u32>,
    ends: Vec<u32>,
}

impl Model for LiteralTrail {
    ghost use Rattle.std.specs.Prelude.{length, vec_capacity};
    ghost use Rattle.literal_trail.specs.Trail.{Trail};
    ghost use Rattle.literal_trail.specs.Tables.{IsKept};

    ghost Value = { Trail };

    ghost view = { λ s. record { vars = s.vars; entries = s.entries.items; level = length s.ends.items } };

    ghost invariant = { λ s. IsKept s.vars s.entries.items s.values.items s.places.items s.ends.items
        (vec_capacity s.entries) (vec_capacity s.ends) };
}

impl LiteralTrail {
    /// A trail with no entry, at level 0.
    pub fn with(alloc: Global, vars: u32) -> Result<LiteralTrail, AllocError>
        requires { vars ≤ 2 ^ 27 }
        ensures empty { IfOk result (λ made. made ≡ empty_trail vars) }
        ensures trail { IfOk result IsTrail }
    {
        let mut values = Vec::with_capacity(alloc, 2 * vars as usize + 2)?;
        let mut places = Vec::with_capacity(alloc, vars as usize + 1)?;
        push_free(&mut values, 2 * vars + 2);
        push_no_place(&mut places, vars + 1);
        Ok(LiteralTrail {
            vars,
            entries: Vec::with_capacity(alloc, vars as usize)?,
            values,
            places,
            ends: Vec::with_capacity(alloc, vars as usize)?,
        })
    }

    /// The number of variables.
    pub fn vars(&self) -> u32
        ensures count { result ≡ self.now.vars }
        ensures trail { IsTrail self.now }
    {
        self.vars
    }

    /// The number of entries.
    pub fn len(&self) -> u32
        ensures count { result ≡ length self.now.entries }
        ensures trail { IsTrail self.now }
    {
        self.entries.as_slice().len() as u32
    }

    /// The current level.
    pub fn level(&self) -> u32
        ensures level { result ≡ self.now.level }
        ensures trail { IsTrail self.now }
    {
        self.ends.as_slice().len() as u32
    }

    /// The entries, the oldest first.
    pub fn entries(&self) -> &[Entry]
        ensures { result.now ≡ self.now.entries }
    {
        self.entries.as_slice()
    }

    /// The entry at a place, counted from 0.
    pub fn entry_at(&self, place: u32) -> Entry
        requires { place < length self.now.entries }
        ensures { result ≡ entry_at self.now.entries place }
    {
        self.entries.as_slice()[place as usize]
    }

    /// Whether a literal is true, none where it is free. It takes constant time.
    pub fn truth(&self, l: Lit) -> Option<bool>
        requires { l.var ≤ self.now.vars }
        ensures { result ≡ truth_in self.now.entries l }
    {
        self.values.as_slice()[code_of(l)].truth()
    }

    /// Whether a variable is true, none where it is free. It takes constant time.
    pub fn value(&self, var: u32) -> Option<bool>
        requires { var ≤ self.now.vars }
        ensures { result ≡ value_in self.now.entries var }
    {
        self.truth(Lit {
            var,
            positive: true,
        })
    }

    /// The entry of a variable, none where it is free. It takes constant time.
    pub fn entry_of(&self, var: u32) -> Option<Entry>
        requires { var ≤ self.now.vars }
        ensures { result ≡ entry_of self.now.entries var }
    {
        let place = self.places.as_slice()[var as usize];
        if place == 0 {
            None
        } else {
            Some(self.entries.as_slice()[place as usize - 1])
        }
    }

    /// The place of a variable's entry, none where it is free. It takes constant time.
    pub fn place_of(&self, var: u32) -> Option<u32>
        requires { var ≤ self.now.vars }
        ensures { MatchOption result (entry_of self.now.entries var ≡ None)
            (λ j. (j < length self.now.entries)
            × (entry_of self.now.entries var ≡ Some (entry_at self.now.entries j))) }
    {
        self.places.as_slice()[var as usize].checked_sub(1)
    }

    /// The level of a variable, none where it is free. It takes constant time.
    pub fn level_of(&self, var: u32) -> Option<u32>
        requires { var ≤ self.now.vars }
        ensures { result ≡ level_in self.now.entries var }
    {
        self.entry_of(var).map(|entry| entry.level)
    }

    /// The reason of a variable, none where it is free or was decided. It takes constant time.
    pub fn reason_of(&self, var: u32) -> Option<u32>
        requires { var ≤ self.now.vars }
        ensures { result ≡ reason_in self.now.entries var }
    {
        self.entry_of(var).and_then(|entry| entry.reason)
    }

    /// The number of entries up to the end of a level: the place behind its last one. It takes constant time.
    pub fn end_of_level(&self, level: u32) -> u32
        requires { level ≤ self.now.level }
        ensures { result ≡ length (up_to level self.now.entries) }
    {
        if (level as usize) < self.ends.as_slice().len() {
            self.ends.as_slice()[level as usize]
        } else {
            self.entries.as_slice().len() as u32
        }
    }

    /// Makes a literal true at the current level, for a reason. It takes constant time and no memory.
    pub fn imply(&mut self, l: Lit, reason: u32)
        requires lit { LitBelow (self.old.vars + 1) l }
        requires free { entry_of self.old.entries l.var ≡ None }
        ensures trail { self.new ≡ implied self.old l reason }
        ensures is_trail { IsTrail self.new }
    {
        let entry = Entry {
            lit: l,
            level: self.ends.as_slice().len() as u32,
            reason: Some(reason),
        };
        let values = self.values.as_mut_slice();
        add_entry(&mut self.entries, values, self.places.as_mut_slice(), entry);
    }

    /// Begins a level with a literal that is decided. It takes constant time and no memory.
    pub fn choose(&mut self, l: Lit)
        requires lit { LitBelow (self.old.vars + 1) l }
        requires free { entry_of self.old.entries l.var ≡ None }
        ensures trail { self.new ≡ chosen self.old l }
        ensures is_trail { IsTrail self.new }
    {
        let end = self.entries.as_slice().len() as u32;
        self.ends.push(end).unwrap();
        let entry = Entry {
            lit: l,
            level: self.ends.as_slice().len() as u32,
            reason: None,
        };
        let values = self.values.as_mut_slice();
        add_entry(&mut self.entries, values, self.places.as_mut_slice(), entry);
    }

    /// Takes back the levels above one. It takes constant time for each entry that goes, and no memory.
    pub fn cut_back(&mut self, level: u32)
        requires { level ≤ self.old.level }
        ensures trail { self.new ≡ cut_back self.old level }
        ensures is_trail { IsTrail self.new }
    {
        if (level as usize) < self.ends.as_slice().len() {
            let end = self.ends.as_slice()[level as usize];
            let values = self.values.as_mut_slice();
            keep_front(
                &mut self.entries,
                values,
                self.places.as_mut_slice(),
                end as usize,
            );
            self.ends.truncate(level as usize);
        }
    }
}
