//! Partial values, and how a clause stands under them.
//!
//! A hint is followed by looking at each literal of its clause. What was given is listed, so that letting it go
//! again costs no more than giving it, whatever the number of variables.

ghost use Rattle.std.specs.Prelude.{◌≡◌, ◌<◌, ◌+◌, [], ◌∷◌, map, length, IfOk, OnOk, OnErr};
ghost use Rattle.proof_check.specs.Values.{no_values, set_value};
ghost use Rattle.proof_check.specs.Values as values;
ghost use Rattle.proof_check.specs.Standing as stand;
ghost use Rattle.proof_check.specs.Arena.{unpacked};
ghost use Rattle.proof_check.specs.Assigned.{value_at, AreListed};

use crate::arena::unpacked;
use crate::standing::Standing;
use order_ints::Lit;
use std::alloc::{AllocError, Global};
use std::marker::Model;

/// The truth value of each variable that has one.
#[derive(Drop)]
pub(crate) struct Values {
    /// By variable.
    truths: Vec<Option<bool>>,
    /// The variables that were given a value.
    given: Vec<u32>,
}

impl Model for Values {
    ghost use Rattle.std.specs.Prelude.{Bool, List, Option};
    ghost use Rattle.proof_check.specs.Assigned.{AreListed};

    ghost Value = { List (Option Bool) };

    ghost view = { λ s. s.truths.items };

    ghost invariant = { λ s. AreListed s.truths.items s.given.items };
}

/// The value of a variable.
fn truth_of(truths: &[Option<bool>], var: u32) -> Option<bool>
    ensures { result ≡ value_at truths.now var }
{
    let place = var as usize;
    if place < truths.len() {
        truths[place]
    } else {
        None
    }
}

/// Whether a literal is false.
fn is_false(truths: &[Option<bool>], lit: Lit) -> bool
    ensures { result ≡ values.is_false (value_at truths.now) lit }
{
    match truth_of(truths, lit.var()) {
        None => false,
        Some(truth) => { if lit.positive() { !truth } else { truth } }
    }
}

/// How a clause with one open literal stands.
fn standing_for(truths: &[Option<bool>], lit: Lit) -> Standing
    ensures { result ≡ stand.standing_of (value_at truths.now) (lit ∷ []) }
{
    match truth_of(truths, lit.var()) {
        None => Standing::UnitFor(lit),
        Some(_) => Standing::Neither,
    }
}

/// How a clause stands. It looks at no literal past the second that isn't false.
fn standing_in(truths: &[Option<bool>], codes: &[u32]) -> Standing
    ensures { result ≡ stand.standing (value_at truths.now) (map unpacked codes.now) }
{
    let mut found = None;
    for code in codes {
        let lit = unpacked(*code);
        if !is_false(truths, lit) {
            if found.is_some() {
                return Standing::Neither;
            }
            found = Some(lit);
        }
    }
    match found {
        None => Standing::Refuted,
        Some(lit) => standing_for(truths, lit),
    }
}

/// Takes the values of the listed variables away.
fn clear_all(truths: &mut Vec<Option<bool>>, given: &mut Vec<u32>)
    requires { AreListed truths.old.items given.old.items }
    ensures values { value_at truths.new.items ≡ no_values }
    ensures size { length truths.new.items ≡ length truths.old.items }
    ensures listed { AreListed truths.new.items given.new.items }
{
    while let Some(var) = given.pop() {
        let place = var as usize;
        if place < truths.len() {
            truths[place] = None;
        }
    }
}

impl Values {
    /// No values, for the variables 1 to `vars`.
    pub(crate) fn with(alloc: Global, vars: u32) -> Result<Values, AllocError>
        ensures size { IfOk result (λ v. length v ≡ vars + 1) }
        ensures values { IfOk result (λ v. value_at v ≡ no_values) }
    {
        let truths = vec![in alloc; None; vars as usize + 1]?;
        Ok(Values {
            truths,
            given: Vec::new(alloc),
        })
    }

    /// Whether a variable has no value.
    pub(crate) fn is_free(&self, lit: Lit) -> bool
        ensures { result ≡ values.is_free (value_at self.now) lit }
    {
        truth_of(&self.truths, lit.var()).is_none()
    }

    /// How a clause of packed literals stands.
    pub(crate) fn standing(&self, codes: &[u32]) -> Standing
        ensures { result ≡ stand.standing (value_at self.now) (map unpacked codes.now) }
    {
        standing_in(&self.truths, codes)
    }

    /// Makes a literal true.
    pub(crate) fn make_true(&mut self, lit: Lit) -> Result<(), AllocError>
        requires { lit.var < length self.old }
        ensures size { length self.new ≡ length self.old }
        ensures ok { OnOk result (value_at self.new ≡ set_value (value_at self.old) lit) }
        ensures err { OnErr result (self.new ≡ self.old) }
    {
        self.given.push(lit.var())?;
        self.truths[lit.var() as usize] = Some(lit.positive());
        Ok(())
    }

    /// Takes all values away. It costs what was given.
    pub(crate) fn clear(&mut self)
        ensures size { length self.new ≡ length self.old }
        ensures values { value_at self.new ≡ no_values }
    {
        clear_all(&mut self.truths, &mut self.given);
    }
}
