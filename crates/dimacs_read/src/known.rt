//! The truth values that were told so far.

ghost use Rattle.std.specs.Prelude.{◌≡◌, ◌↔◌, true, false, length, IfOk, IsTrue};
ghost use Rattle.std.specs.List.{list_all};
ghost use Rattle.dimacs_read.specs.Values.{nothing_known, IsNew, with_literal, IsAnswer};

use order_ints::{Cnf, Lit, first_false};
use std::alloc::{AllocError, Global};
use std::marker::Model;

/// Which variables were told, and their truth values. A look-up and a change take constant time.
#[derive(Drop)]
pub(crate) struct KnownValues {
    listed: Vec<bool>,
    values: Vec<bool>,
}

impl Model for KnownValues {
    ghost use Rattle.std.specs.Prelude.{◌≡◌, ◌<◌, ◌^◌, length};
    ghost use Rattle.dimacs_read.specs.Values.{Known};

    ghost Value = { Known };

    ghost view = { λ k. record { listed = k.listed.items; values = k.values.items } };

    ghost invariant = { λ k. (length k.listed.items ≡ length k.values.items) × (length k.listed.items < 2 ^ 32) };
}

impl KnownValues {
    /// No variable of `vars` was told.
    pub(crate) fn new(alloc: Global, vars: u32) -> Result<KnownValues, AllocError>
        ensures { IfOk result (λ k. k ≡ nothing_known vars) }
    {
        let listed = vec![in alloc; false; vars as usize]?;
        let values = vec![in alloc; false; vars as usize]?;
        Ok(KnownValues { listed, values })
    }

    /// How many variables there are.
    pub(crate) fn vars(&self) -> u32
        ensures { result ≡ length self.now.listed }
    {
        self.listed.len() as u32
    }

    /// Takes a literal, if its variable is there and wasn't told.
    pub(crate) fn take(&mut self, literal: Lit) -> bool
        ensures new { result ≡ true → IsNew self.old literal × (self.new ≡ with_literal self.old literal) }
        ensures old { IsNew self.old literal → result ≡ true }
    {
        let var = literal.var() as usize;
        if var == 0 || var > self.listed.len() || self.listed[var - 1] {
            return false;
        }
        self.listed[var - 1] = true;
        self.values[var - 1] = literal.positive();
        true
    }

    /// Whether each variable was told, and the values satisfy the clauses.
    pub(crate) fn is_answer(&self, cnf: &Cnf) -> bool
        ensures { IsTrue result ↔ IsAnswer cnf.now self.now }
    {
        all_true(self.listed.as_slice()) && first_false(cnf, self.values.as_slice()).is_none()
    }

    /// The truth values, that of variable 1 first.
    pub(crate) fn into_values(self) -> Vec<bool>
        ensures { result.items ≡ self.values }
    {
        let KnownValues { listed, values } = self;
        drop(listed);
        values
    }
}

/// Whether all are true.
fn all_true(values: &[bool]) -> bool
    ensures { result ≡ list_all (λ b. b) values.now }
{
    values.iter().all(|b| *b)
}
