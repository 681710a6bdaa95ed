//! Clauses in one flat list of atoms.

ghost use Rattle.std.specs.Prelude.{◌≡◌, ◌+◌, ◌++◌, ◌^◌, ◌<◌, ◌≤◌, [], length, filter_map};
ghost use Rattle.std.specs.Prelude.{vec_len, vec_capacity, OnOk, OnErr};
ghost use Rattle.order_ints.specs.OrderedClauses.{ordered_clause};
ghost use Rattle.direct_encode.specs.Literals.{literals};
ghost use Rattle.step_kernel.specs.Pieces.{pieces, all_lengths};

use bee_list::Sequence;
use clause_order::OrderedClauses;
use order_ints::Atom;
use std::alloc::{AllocError, Global};
use std::marker::Model;

/// Clauses one behind another, with the length of each: four bytes for a clause beside its atoms. A contract
/// sees the list of clauses.
#[derive(Drop)]
pub struct ClauseList {
    atoms: Vec<Atom>,
    lengths: Vec<u32>,
}

impl Model for ClauseList {
    ghost use Rattle.std.specs.Prelude.{◌≡◌, List, length};
    ghost use Rattle.order_ints.specs.declared.atom.Atom.{Atom};
    ghost use Rattle.step_kernel.specs.Pieces.{pieces, all_lengths};

    ghost Value = { List (List Atom) };

    ghost view = { λ s. pieces s.lengths.items s.atoms.items };

    ghost invariant = { λ s. all_lengths s.lengths.items ≡ length s.atoms.items };
}

/// How many literals clauses have.
fn number_of_literals(clauses: &[Sequence<Atom>]) -> usize
    requires { literals clauses.now < 2 ^ 32 }
    ensures { result ≡ literals clauses.now }
{
    let mut number = 0;
    for clause in clauses {
        number += clause.len();
    }
    number
}

/// Puts clauses behind those that are there, in room that was made.
fn put_all(atoms: &mut Vec<Atom>, lengths: &mut Vec<u32>, clauses: &[Sequence<Atom>])
    requires kept { all_lengths lengths.old.items ≡ length atoms.old.items }
    requires small { literals clauses.now < 2 ^ 32 }
    requires atoms { vec_len atoms.old + literals clauses.now ≤ vec_capacity atoms.old }
    requires lengths { vec_len lengths.old + length clauses.now ≤ vec_capacity lengths.old }
    ensures added { pieces lengths.new.items atoms.new.items
        ≡ pieces lengths.old.items atoms.old.items ++ clauses.now }
    ensures kept { all_lengths lengths.new.items ≡ length atoms.new.items }
{
    for clause in clauses {
        lengths.push(clause.len() as u32).unwrap();
        atoms.extend_from_slice(clause.as_slice()).unwrap();
    }
}

impl ClauseList {
    /// No clause.
    pub fn new(alloc: Global) -> ClauseList
        ensures { result ≡ [] }
    {
        ClauseList {
            atoms: Vec::new(alloc),
            lengths: Vec::new(alloc),
        }
    }

    /// Adds clauses. It takes all the memory first.
    pub fn extend(&mut self, clauses: &[Sequence<Atom>]) -> Result<(), AllocError>
        requires { literals clauses.now < 2 ^ 32 }
        ensures added { OnOk result (self.new ≡ self.old ++ clauses.now) }
        ensures refused { OnErr result (self.new ≡ self.old) }
    {
        self.atoms.reserve(number_of_literals(clauses))?;
        self.lengths.reserve(clauses.len())?;
        put_all(&mut self.atoms, &mut self.lengths, clauses);
        Ok(())
    }

    /// Puts each clause, as a view has it, in order and adds it to others.
    pub fn put_in_order(
        &self,
        alloc: Global,
        view: &[Atom],
        ordered: &mut OrderedClauses,
    ) -> Result<(), AllocError>
        ensures { OnOk result
            (ordered.new ≡ ordered.old ++ filter_map (ordered_clause view.now) self.now) }
    {
        let mut rest = self.atoms.as_slice();
        for length in self.lengths.as_slice() {
            let (clause, others) = rest.split_at(*length as usize);
            ordered.add(alloc, view, clause)?;
            rest = others;
        }
        Ok(())
    }
}
