//! The literals of a clause, lent by the arena that has them packed.

ghost use Rattle.std.specs.Prelude.{◌≡◌, ◌<◌, ◌^◌, length, map};
ghost use Rattle.std.specs.Iterator.{YieldsFirst, item_count};
ghost use Rattle.clause_arena.specs.Clauses.{lit_in};
ghost use Rattle.clause_arena.specs.Codes.{lit_of};

use crate::codes::lit_of;
use order_ints::Lit;
use std::marker::Model;

/// The literals of a clause, or what is left of a walk over them. A contract sees it as their list. A literal is
/// unpacked where it is looked at, in constant time.
#[derive(Drop)]
pub struct Literals<'a> {
    codes: &'a [u32],
}

impl<'a> Model for Literals<'a> {
    ghost use Rattle.std.specs.Prelude.{List, map, length, ◌<◌, ◌^◌};
    ghost use Rattle.order_ints.specs.declared.literal.Lit.{Lit};
    ghost use Rattle.clause_arena.specs.Codes.{lit_of};

    ghost Value = { List Lit };

    ghost view = { λ s. map lit_of s.codes.now };

    ghost invariant = { λ s. length s.codes.now < 2 ^ 32 };
}

impl<'a> Literals<'a> {
    /// The literals of packed ones.
    pub(crate) fn of(codes: &'a [u32]) -> Literals<'a>
        requires { length codes.now < 2 ^ 32 }
        ensures { result ≡ map lit_of codes.now }
    {
        Literals { codes }
    }

    /// The number of literals.
    pub fn len(&self) -> u32
        ensures { result ≡ length self.now }
    {
        self.codes.len() as u32
    }

    /// The literal at a place, counted from 0.
    pub fn at(&self, place: u32) -> Lit
        requires { place < length self.now }
        ensures { result ≡ lit_in self.now place }
    {
        lit_of(self.codes[place as usize])
    }
}

impl<'a> Iterator for Literals<'a> {
    type Item = Lit;

    ghost next_gives = { YieldsFirst (λ lits. lits) };

    ghost remaining = { item_count (λ lits. lits) };

    fn next(&mut self) -> Option<Lit> {
        let (first, rest) = self.codes.split_first()?;
        self.codes = rest;
        Some(lit_of(*first))
    }
}
