//! Clauses put in order as they come.

ghost use Rattle.std.specs.Prelude.{◌≡◌, ◌++◌, ◌∷◌, [], ◌+◌, List, ℕ, IfOk, OnOk, OnErr};
ghost use Rattle.std.specs.Prelude.{filter_map};
ghost use Rattle.order_ints.specs.declared.atom.Atom.{Atom};
ghost use Rattle.order_ints.specs.Truth.{Valuation};
ghost use Rattle.order_ints.specs.Place.{ClausesBelow, InRange};
ghost use Rattle.order_ints.specs.Satisfies.{clauses_truth};
ghost use Rattle.order_ints.specs.OrderedClauses.{ordered_clause, ordered_clauses, distinct};

use crate::distinct::distinct_clauses;
use bee_list::Sequence;
use order_ints::{Atom, Cnf, Lit, ordered_clause};
use std::alloc::{AllocError, Global};
use std::marker::Model;

/// Clauses of literals, each in order, as they came. A clause sees the list of them.
#[derive(Drop)]
pub struct OrderedClauses {
    kept: Vec<Sequence<Lit>>,
}

impl Model for OrderedClauses {
    ghost use Rattle.std.specs.Prelude.{List};
    ghost use Rattle.order_ints.specs.declared.literal.Lit.{Lit};

    ghost Value = { List (List Lit) };

    ghost view = { λ o. o.kept.items };
}

impl OrderedClauses {
    /// No clause.
    pub fn new(alloc: Global) -> OrderedClauses
        ensures { result ≡ [] }
    {
        OrderedClauses {
            kept: Vec::new(alloc),
        }
    }

    /// Puts a clause of atoms, as a view has them, in order and adds it; one that is always true adds
    /// nothing. It takes the time of one sort of its literals, and memory for them alone.
    pub fn add(&mut self, alloc: Global, view: &[Atom], clause: &[Atom]) -> Result<(), AllocError>
        ensures added { OnOk result (self.new ≡ self.old ++ filter_map (ordered_clause view.now) (clause.now ∷ [])) }
        ensures refused { OnErr result (self.new ≡ self.old) }
    {
        if let Some(literals) = ordered_clause(alloc, view, clause)? {
            self.kept.push(literals)?;
        }
        Ok(())
    }

    /// The CNF of the clauses, each once, where it stands first. It takes the time of one look into a hash
    /// set for each clause; the literals are moved.
    pub fn into_cnf(self, alloc: Global, vars: u32) -> Result<Cnf, AllocError>
        ensures vars { IfOk result (λ cnf. cnf.vars ≡ vars) }
        ensures distinct { IfOk result (λ cnf. cnf.clauses ≡ distinct self) }

        // Where they are the clauses of a list, the CNF's are those put in order.
        ensures clauses { IfOk result
            (λ cnf. (view : List Atom) → (cs : List (List Atom)) → self ≡ filter_map (ordered_clause view) cs
            → cnf.clauses ≡ ordered_clauses view cs) }

        // The CNF is as true as they are under each valuation.
        ensures same_truth { IfOk result (λ cnf. (σ : Valuation)
            → clauses_truth σ cnf.clauses ≡ clauses_truth σ self) }

        // Where their variables are from 1 to `vars`, so are the CNF's.
        ensures in_range { IfOk result (λ cnf. ClausesBelow (vars + 1) self → InRange cnf) }
    {
        let OrderedClauses { kept } = self;
        let clauses = distinct_clauses(alloc, kept)?;
        Ok(Cnf { vars, clauses })
    }
}
