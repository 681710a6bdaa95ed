//! A call of a text, and its arguments as those of a statement.

ghost use Rattle.std.specs.Prelude.{◌≡◌, IfOk, slice_get, map};
ghost use Rattle.typed_model.specs.Scope.{truth, number, numeral};
ghost use Rattle.typed_model.specs.Items.{truth_in, number_in, terms_in, truths_in, numbers_in, numerals_in};

use crate::scope::{Scope, numeral};
use bee_list::{Apart, Sequence};
use bumblebee_reader::{Arg, Name, Term};
use model_meaning::{BoolTerm, IntTerm};
use std::alloc::{AllocError, Global};

/// A call of a text, among the declarations of a scope.
#[derive(Clone, Copy)]
pub(crate) struct Call<'a> {
    pub(crate) alloc: Global,
    pub(crate) scope: &'a Scope,
    pub(crate) name: &'a Name,
    pub(crate) args: &'a [Arg],
}

/// The terms of an argument that is a list.
fn terms_in(args: &[Arg], at: usize) -> &[Term]
    ensures { result.now ≡ terms_in (slice_get args.now at) }
{
    match args.get(at) {
        Some(Arg::Many(terms)) => terms.as_slice(),
        _ => &[],
    }
}

/// The Boolean terms of a list.
fn truths(alloc: Global, scope: &Scope, terms: &[Term]) -> Result<Sequence<BoolTerm>, AllocError>
    ensures { IfOk result (λ xs. xs ≡ map (truth scope.now) terms.now) }
{
    let mut members = Vec::with_capacity(alloc, terms.len())?;
    for term in terms {
        members.push(scope.truth(term))?;
    }
    Ok(Sequence::from_vec(members))
}

/// The integer terms of a list.
fn numbers(alloc: Global, scope: &Scope, terms: &[Term]) -> Result<Sequence<IntTerm>, AllocError>
    ensures { IfOk result (λ xs. xs ≡ map (number scope.now) terms.now) }
{
    let mut members = Vec::with_capacity(alloc, terms.len())?;
    for term in terms {
        members.push(scope.number(term))?;
    }
    Ok(Sequence::from_vec(members))
}

/// The numerals of a list.
pub(crate) fn numerals(alloc: Global, terms: &[Term]) -> Result<Sequence<i64>, AllocError>
    ensures { IfOk result (λ xs. xs ≡ map numeral terms.now) }
{
    let mut members = Vec::with_capacity(alloc, terms.len())?;
    for term in terms {
        members.push(numeral(term))?;
    }
    Ok(Sequence::from_vec(members))
}

impl Call<'_> {
    /// The call's name, as its own.
    pub(crate) fn own_name(&self) -> Result<Name, AllocError>
        ensures { IfOk result (λ n. n ≡ self.now.name.now) }
    {
        self.name.clone()
    }

    /// The Boolean term that an argument is.
    pub(crate) fn truth(&self, at: usize) -> BoolTerm
        ensures { result ≡ truth_in self.now.scope.now (slice_get self.now.args.now at) }
    {
        match self.args.get(at) {
            Some(Arg::One(term)) => self.scope.truth(term),
            _ => BoolTerm::Const(false),
        }
    }

    /// The integer term that an argument is.
    pub(crate) fn number(&self, at: usize) -> IntTerm
        ensures { result ≡ number_in self.now.scope.now (slice_get self.now.args.now at) }
    {
        match self.args.get(at) {
            Some(Arg::One(term)) => self.scope.number(term),
            _ => IntTerm::Number(0),
        }
    }

    /// The Boolean terms of an argument.
    pub(crate) fn truths(&self, at: usize) -> Result<Sequence<BoolTerm>, AllocError>
        ensures { IfOk result (λ xs. xs ≡ truths_in self.now.scope.now (slice_get self.now.args.now at)) }
    {
        truths(self.alloc, self.scope, terms_in(self.args, at))
    }

    /// The integer terms of an argument.
    pub(crate) fn numbers(&self, at: usize) -> Result<Sequence<IntTerm>, AllocError>
        ensures { IfOk result (λ xs. xs ≡ numbers_in self.now.scope.now (slice_get self.now.args.now at)) }
    {
        numbers(self.alloc, self.scope, terms_in(self.args, at))
    }

    /// The numerals of an argument.
    pub(crate) fn numerals(&self, at: usize) -> Result<Sequence<i64>, AllocError>
        ensures { IfOk result (λ xs. xs ≡ numerals_in (slice_get self.now.args.now at)) }
    {
        numerals(self.alloc, terms_in(self.args, at))
    }

    /// The Boolean term of an argument, put apart.
    pub(crate) fn truth_apart(&self, at: usize) -> Result<Apart<BoolTerm>, AllocError>
        ensures { IfOk result (λ t. t ≡ truth_in self.now.scope.now (slice_get self.now.args.now at)) }
    {
        Apart::new(self.alloc, self.truth(at))
    }

    /// The Boolean terms of an argument, put apart.
    pub(crate) fn truths_apart(&self, at: usize) -> Result<Apart<Sequence<BoolTerm>>, AllocError>
        ensures { IfOk result (λ xs. xs ≡ truths_in self.now.scope.now (slice_get self.now.args.now at)) }
    {
        let members = self.truths(at)?;
        Apart::new(self.alloc, members)
    }

    /// The integer terms of an argument, put apart.
    pub(crate) fn numbers_apart(&self, at: usize) -> Result<Apart<Sequence<IntTerm>>, AllocError>
        ensures { IfOk result (λ xs. xs ≡ numbers_in self.now.scope.now (slice_get self.now.args.now at)) }
    {
        let members = self.numbers(at)?;
        Apart::new(self.alloc, members)
    }
}
