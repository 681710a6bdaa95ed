//! Taking the lines of the ledger and of the derivations.

ghost use Rattle.std.specs.Prelude.{◌≡◌, IfOk, Some, Ok, Err, false, true};
ghost use Rattle.step_kernel.specs.Steps.{step};
ghost use Rattle.step_kernel.specs.CnfOf.{cnf_of};
ghost use Rattle.proof_check.specs.declared.line.ProofLine.{ProofLine};
ghost use Rattle.proof_check.specs.Lines.{AreBytesOf};
ghost use Rattle.proof_check.specs.Room.{line_in};
ghost use Rattle.proof_check.specs.Lrat.{proof_of};
ghost use Rattle.answer_document.specs.Valid.{stated};
ghost use Rattle.ledger_check.specs.Items.{may_have_second, must_have_second};
ghost use Rattle.ledger_check.specs.Tests.{with_kernel, with_first, with_second, line_taken, second_begun};
ghost use Rattle.ledger_check.specs.Tests.{is_concluded, is_first_shown, is_second_shown, is_optimal, is_refuted};
ghost use Rattle.ledger_check.specs.Tests.{additions_in, when};
ghost use Rattle.ledger_check.specs.Taken.{standing_of, Took, Takes, Derives, IsWithin, IsLater};

use crate::bounds::{adds_up, fixed_checker, is_shown, stated};
use crate::fault::Why;
use crate::part::Part;
use crate::reading::Reading;
use answer_document::{Bounds, Verdict, first_bound, fixed, second_bound};
use bee_text::is;
use certificate_lines::checker_of;
use ledger_text::{Line, read_step};
use model_meaning::Model;
use order_ints::resolve;
use proof_check::{Checker, LineHead, LineRoom, ProofFault, ProofTextFault, TakeFault};
use std::alloc::AllocError;
use step_kernel::ApplyFault;

/// Whether a second derivation may stand.
fn may_have_second(verdict: Verdict) -> bool
    ensures { result ≡ may_have_second verdict }
{
    match verdict {
        Verdict::Satisfiable => false,
        Verdict::Unsatisfiable => false,
        Verdict::Optimum(b) => b.second.is_some(),
        Verdict::Unknown(_, None) => false,
        Verdict::Unknown(_, Some(b)) => b.second.is_some(),
    }
}

/// Whether a second derivation has to stand.
fn must_have_second(verdict: Verdict) -> bool
    ensures { result ≡ must_have_second verdict }
{
    match verdict {
        Verdict::Optimum(b) => b.second.is_some(),
        _ => false,
    }
}

/// A line of a derivation that has come so far, and what stands against it.
fn derive(
    checker: &mut Option<Checker>,
    head: LineHead,
    room: &LineRoom,
) -> Result<Option<ProofFault>, AllocError>
    ensures { IfOk result (λ o. Derives (line_taken checker.old (line_in head room.now)) checker.new o) }
{
    match checker {
        None => Ok(Some(ProofFault::Id)),
        Some(proof) => match proof.take_read(head, room) {
            Ok(()) => Ok(None),
            Err(TakeFault::Proof(fault)) => Ok(Some(fault)),
            Err(TakeFault::Memory) => Err(AllocError),
        },
    }
}

/// Whether the empty clause was derived.
fn is_refuted(checker: &Option<Checker>) -> bool
    ensures { result ≡ is_refuted checker.now }
{
    match checker {
        None => false,
        Some(proof) => proof.known(&[]),
    }
}

/// How many clauses were added.
fn additions(checker: &Option<Checker>) -> u64
    ensures { result ≡ additions_in checker.now }
{
    match checker {
        None => 0,
        Some(proof) => proof.added(),
    }
}

impl Reading {
    /// Whether the bound of the first objective is shown.
    fn is_first_shown(&self, model: &Model, number: i64) -> bool
        requires { IsWithin self.now }
        ensures { result ≡ is_first_shown model.now (standing_of self.now) self.now.first number }
    {
        match &self.first {
            None => false,
            Some(proof) => {
                let bound = first_bound(model.goal, self.map.entries.as_slice(), number);
                is_shown(proof, resolve(self.state.view(), bound))
            }
        }
    }

    /// Whether the bound of the second objective is shown.
    fn is_second_shown(&self, model: &Model, number: i64) -> bool
        requires { IsWithin self.now }
        ensures { result ≡ is_second_shown model.now (standing_of self.now) self.now.second number }
    {
        match &self.second {
            None => false,
            Some(proof) => {
                let bound = second_bound(model.goal, self.map.entries.as_slice(), number);
                is_shown(proof, resolve(self.state.view(), bound))
            }
        }
    }

    /// Whether no better values are left.
    fn is_optimal(&self, model: &Model, bounds: Bounds) -> bool
        requires { IsWithin self.now }
        ensures { result ≡ is_optimal model.now (standing_of self.now) bounds.first bounds.second }
    {
        match bounds.second {
            None => self.is_first_shown(model, bounds.first),
            Some(number) => self.is_second_shown(model, number),
        }
    }

    /// Whether what was derived shows the verdict.
    fn is_concluded(&self, model: &Model) -> bool
        requires { IsWithin self.now }
        ensures { result ≡ is_concluded model.now (standing_of self.now) self.now.verdict }
    {
        match self.verdict {
            Verdict::Satisfiable => true,
            Verdict::Unsatisfiable => is_refuted(&self.first),
            Verdict::Optimum(bounds) => self.is_optimal(model, bounds),
            Verdict::Unknown(n, _) => adds_up(additions(&self.first), additions(&self.second), n),
        }
    }

    /// Takes a step of the compilation.
    fn take_step(&mut self, line: &Line) -> Result<Option<Why>, AllocError>
        ensures took { IfOk result
            (λ o. Took (with_kernel (standing_of self.old) (step self.old.state line.now)) (standing_of self.new) o) }
        ensures later { IsLater self.old self.new }
    {
        // Read for the proof alone, which knows the state's invariant from here on.
        let _vars = self.state.vars();
        match self.state.apply(line) {
            Ok(()) => Ok(None),
            Err(ApplyFault::Step(fault)) => Ok(Some(Why::Step(fault))),
            Err(ApplyFault::Memory) => Err(AllocError),
        }
    }

    /// Begins the derivation.
    fn begin_proof(&mut self) -> Result<Option<Why>, AllocError>
        ensures took { IfOk result
            (λ o. Took
            (Ok (record (standing_of self.old) { part = Part.Proof; first = Some (proof_of (cnf_of self.old.state)) }))
            (standing_of self.new) o) }
        ensures later { IsLater self.old self.new }
    {
        let alloc = *self.values.allocator();
        let checker = checker_of(alloc, &self.state)?;
        self.first = Some(checker);
        self.part = Part::Proof;
        Ok(None)
    }

    /// Takes a line of the derivation.
    fn take_first(&mut self, head: LineHead, room: &LineRoom) -> Result<Option<Why>, AllocError>
        ensures took { IfOk result
            (λ o. Took (with_first (standing_of self.old) (line_taken self.old.first (line_in head room.now)))
            (standing_of self.new) o) }
        ensures later { IsLater self.old self.new }
    {
        match derive(&mut self.first, head, room)? {
            None => Ok(None),
            Some(fault) => Ok(Some(Why::Proof(fault))),
        }
    }

    /// Takes a line of the second derivation.
    fn take_second(&mut self, head: LineHead, room: &LineRoom) -> Result<Option<Why>, AllocError>
        ensures took { IfOk result
            (λ o. Took (with_second (standing_of self.old) (line_taken self.old.second (line_in head room.now)))
            (standing_of self.new) o) }
        ensures later { IsLater self.old self.new }
    {
        match derive(&mut self.second, head, room)? {
            None => Ok(None),
            Some(fault) => Ok(Some(Why::Proof(fault))),
        }
    }

    /// Begins the second derivation, where the first bound is shown.
    fn fix(&mut self, model: &Model, bounds: Bounds) -> Result<Option<Why>, AllocError>
        requires { IsWithin self.old }
        ensures took { IfOk result
            (λ o. Took (second_begun model.now (standing_of self.old) (Some bounds)) (standing_of self.new) o) }
        ensures later { IsLater self.old self.new }
    {
        if !self.is_first_shown(model, bounds.first) {
            return Ok(Some(Why::Open));
        }
        let alloc = *self.values.allocator();
        let bound = fixed(model.goal, self.map.entries.as_slice(), bounds.first);
        let checker = fixed_checker(alloc, &self.state, resolve(self.state.view(), bound))?;
        self.second = Some(checker);
        self.part = Part::Second;
        Ok(None)
    }

    /// Begins the second derivation.
    fn begin_second(&mut self, model: &Model) -> Result<Option<Why>, AllocError>
        requires { IsWithin self.old }
        ensures took { IfOk result
            (λ o. Took (second_begun model.now (standing_of self.old) (stated self.old.verdict)) (standing_of self.new)
            o) }
        ensures later { IsLater self.old self.new }
    {
        match stated(self.verdict) {
            None => Ok(Some(Why::Open)),
            Some(bounds) => self.fix(model, bounds),
        }
    }

    /// Ends the document, where what was derived shows the verdict.
    fn finish(&mut self, model: &Model) -> Option<Why>
        requires { IsWithin self.old }
        ensures took { Took
            (when (is_concluded model.now (standing_of self.old) self.old.verdict) Why.Open
            (record (standing_of self.old) { part = Part.End })) (standing_of self.new) result }
        ensures later { IsLater self.old self.new }
    {
        if !self.is_concluded(model) {
            return Some(Why::Open);
        }
        self.part = Part::End;
        None
    }

    /// Takes a line of the ledger, or that which begins the derivation.
    pub(crate) fn ledger_line(
        &mut self,
        model: &Model,
        line: &[u8],
    ) -> Result<Option<Why>, AllocError>
        requires { self.old.part ≡ Part.Ledger }
        ensures takes { IfOk result (λ o. Takes model.now (standing_of self.old) line.now (standing_of self.new) o) }
        ensures later { IsLater self.old self.new }
    {
        if is(line, b"proof") {
            let begun = self.begin_proof()?;
            return Ok(begun);
        }
        match read_step(line) {
            None => Ok(Some(Why::Shape)),
            Some(step) => {
                let taken = self.take_step(&step)?;
                return Ok(taken);
            }
        }
    }

    /// Takes a line behind the derivation, which is no line of it.
    fn behind_proof(&mut self, model: &Model, line: &[u8]) -> Result<Option<Why>, AllocError>
        requires part { self.old.part ≡ Part.Proof }
        requires within { IsWithin self.old }
        requires other { (l : ProofLine) → AreBytesOf l line.now → ⊥ }
        ensures takes { IfOk result (λ o. Takes model.now (standing_of self.old) line.now (standing_of self.new) o) }
        ensures later { IsLater self.old self.new }
    {
        if is(line, b"second") {
            if may_have_second(self.verdict) {
                let begun = self.begin_second(model)?;
                return Ok(begun);
            }
            return Ok(Some(Why::Shape));
        }
        if is(line, b"end") {
            if must_have_second(self.verdict) {
                return Ok(Some(Why::Shape));
            }
            return Ok(self.finish(model));
        }
        Ok(Some(Why::Shape))
    }

    /// Takes a line of the derivation, or one behind it.
    pub(crate) fn proof_line(
        &mut self,
        model: &Model,
        room: &mut LineRoom,
        line: &[u8],
    ) -> Result<Option<Why>, AllocError>
        requires part { self.old.part ≡ Part.Proof }
        requires within { IsWithin self.old }
        ensures takes { IfOk result (λ o. Takes model.now (standing_of self.old) line.now (standing_of self.new) o) }
        ensures later { IsLater self.old self.new }
    {
        match room.read_bytes(line) {
            Ok(head) => {
                let taken = self.take_first(head, room)?;
                return Ok(taken);
            }
            Err(ProofTextFault::Form(_)) => self.behind_proof(model, line),
            Err(ProofTextFault::Memory) => Err(AllocError),
        }
    }

    /// Takes a line behind the second derivation, which is no line of it.
    fn behind_second(&mut self, model: &Model, line: &[u8]) -> Option<Why>
        requires part { self.old.part ≡ Part.Second }
        requires within { IsWithin self.old }
        requires other { (l : ProofLine) → AreBytesOf l line.now → ⊥ }
        ensures takes { Takes model.now (standing_of self.old) line.now (standing_of self.new) result }
        ensures later { IsLater self.old self.new }
    {
        if is(line, b"end") {
            return self.finish(model);
        }
        Some(Why::Shape)
    }

    /// Takes a line of the second derivation, or the one behind it.
    pub(crate) fn second_line(
        &mut self,
        model: &Model,
        room: &mut LineRoom,
        line: &[u8],
    ) -> Result<Option<Why>, AllocError>
        requires part { self.old.part ≡ Part.Second }
        requires within { IsWithin self.old }
        ensures takes { IfOk result (λ o. Takes model.now (standing_of self.old) line.now (standing_of self.new) o) }
        ensures later { IsLater self.old self.new }
    {
        match room.read_bytes(line) {
            Ok(head) => {
                let taken = self.take_second(head, room)?;
                return Ok(taken);
            }
            Err(ProofTextFault::Form(_)) => Ok(self.behind_second(model, line)),
            Err(ProofTextFault::Memory) => Err(AllocError),
        }
    }
}
