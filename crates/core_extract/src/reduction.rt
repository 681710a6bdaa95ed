//! A part of a model that has no solution, and attempts to make it smaller.

ghost use Rattle.std.specs.Prelude.{◌≡◌, ◌<◌, true, false, length, slice_index_or, slice_set, IfOk};
ghost use Rattle.model_meaning.specs.Limits.{InLimits};
ghost use Rattle.model_meaning.specs.WellTyped.{WellTyped};
ghost use Rattle.decode_minimize.specs.Answers.{IsBudget};
ghost use Rattle.model_parts.specs.Only.{numbers_of};
ghost use Rattle.core_extract.specs.Parts.{whole_of, part_of, IsFit, IsAnew};
ghost use Rattle.core_extract.specs.Extracted.{IsReply, IsReduced, IsAttempt};

use crate::reply::{Asker, Certificate, Reply, ask};
use crate::watching::ConflictWatcher;
use bee_list::Sequence;
use fixpoint_queue::Oracle;
use model_meaning::{Assignment, Model, Stmt};
use model_parts::DividedModel;
use rule_base::Steps;
use std::alloc::{AllocError, Global};
use std::sync::ledger::Ledger;

/// A part of a divided model that has no solution, and what shows it.
#[derive(Drop)]
pub struct Reduction {
    /// The model, divided by the marks.
    pub(crate) model: DividedModel,
    /// Which of all statements are left out, by their places.
    pub(crate) out: Vec<bool>,
    /// What shows that the part has no solution.
    pub(crate) certificate: Certificate,
}

/// A part of which it is open whether it has a solution.
#[derive(Drop)]
pub struct SpentPart {
    /// The numbers of its statements.
    pub(crate) statements: Sequence<u64>,
    /// How far the search came.
    pub(crate) certificate: Certificate,
}

/// What came of a query about another part.
#[derive(Drop)]
pub enum Attempt {
    /// It has no solution.
    Smaller(Reduction),
    /// It has this solution.
    Solved(Reduction, Assignment),
    /// The budget was spent.
    Spent(Reduction, SpentPart),
}

/// A divided model, and what was replied about its part.
#[derive(Drop)]
pub(crate) struct Asked {
    pub(crate) model: DividedModel,
    pub(crate) reply: Reply,
}

/// The numbers of statements.
pub(crate) fn numbers_in(alloc: Global, stmts: &[Stmt]) -> Result<Vec<u64>, AllocError>
    ensures { IfOk result (λ numbers. numbers.items ≡ numbers_of stmts.now) }
{
    let mut numbers = Vec::new(alloc);
    for stmt in stmts {
        numbers.push(stmt.number)?;
    }
    Ok(numbers)
}

/// The numbers of the statements of a divided model's part.
pub(crate) fn numbers_of_part(alloc: Global, model: &DividedModel) -> Result<Vec<u64>, AllocError>
    ensures { IfOk result (λ numbers. numbers.items ≡ numbers_of model.now.part.stmts) }
{
    let part = model.part();
    let stmts = part.stmts.as_slice();
    numbers_in(alloc, stmts)
}

/// Divides a model by other marks.
fn divide(alloc: Global, model: DividedModel, out: &[bool]) -> Result<DividedModel, AllocError>
    requires { IsFit model }
    ensures { IfOk result (IsAnew model out.now) }
{
    let marks = Vec::from_slice(alloc, out)?;
    model.choose(alloc, marks)
}

/// Divides a model by other marks, and asks about its part.
pub(crate) fn question<F: Oracle<L>, L: Ledger, W: ConflictWatcher>(
    asker: &Asker<'_, F, W>,
    model: DividedModel,
    out: &[bool],
    steps: &mut Steps<L>,
) -> Result<Asked, AllocError>
    requires fit { IsFit model }
    requires budget { IsBudget asker.now.options.budget }
    ensures anew { IfOk result (λ asked. IsAnew model out.now asked.model) }
    ensures reply { IfOk result
        (λ asked. IsReply F.told (part_of (whole_of model) out.now) asker.now.options asked.reply) }
{
    let model = divide(asker.alloc, model, out)?;
    let reply = ask(asker, model.part(), steps)?;
    Ok(Asked { model, reply })
}

impl Reduction {
    /// The part.
    pub(crate) fn part(&self) -> &Model
        requires { IsFit self.now.model }
        ensures typed { WellTyped result.now }
        ensures limits { InLimits result.now }
        ensures part { result.now ≡ part_of (whole_of self.now.model) self.now.model.out.items }
    {
        self.model.part()
    }

    /// Whether the statement at a place is left out.
    pub(crate) fn is_out(&self, place: usize) -> bool
        requires { place < length self.now.out.items }
        ensures { result ≡ slice_index_or self.now.out.items place false }
    {
        self.out[place]
    }

    /// The marks, and one more that is set.
    pub(crate) fn without(&self, alloc: Global, place: usize) -> Result<Vec<bool>, AllocError>
        requires { place < length self.now.out.items }
        ensures { IfOk result (λ marks. marks.items ≡ slice_set self.now.out.items place true) }
    {
        let mut marks = Vec::from_slice(alloc, self.out.as_slice())?;
        marks[place] = true;
        Ok(marks)
    }

    /// Asks about another part. Where it has no solution, it takes this one's place.
    pub(crate) fn attempt<F: Oracle<L>, L: Ledger, W: ConflictWatcher>(
        self,
        asker: &Asker<'_, F, W>,
        out: Vec<bool>,
        steps: &mut Steps<L>,
    ) -> Result<Attempt, AllocError>
        requires reduced { IsReduced F.told asker.now.options self }
        requires budget { IsBudget asker.now.options.budget }
        ensures { IfOk result (IsAttempt F.told asker.now.options self out.items) }
    {
        let Reduction {
            model,
            out: before,
            certificate,
        } = self;
        let asked = question(asker, model, out.as_slice(), steps)?;
        let Asked {
            model: divided,
            reply,
        } = asked;
        match reply {
            Reply::Refuted(shown) => Ok(Attempt::Smaller(Reduction {
                model: divided,
                out,
                certificate: shown,
            })),
            Reply::Solved(a) => {
                let model = divide(asker.alloc, divided, before.as_slice())?;
                let same = Reduction {
                    model,
                    out: before,
                    certificate,
                };
                Ok(Attempt::Solved(same, a))
            }
            Reply::Spent(shown) => {
                let numbers = numbers_of_part(asker.alloc, &divided)?;
                let model = divide(asker.alloc, divided, before.as_slice())?;
                let same = Reduction {
                    model,
                    out: before,
                    certificate,
                };
                let spent = SpentPart {
                    statements: Sequence::from_vec(numbers),
                    certificate: shown,
                };
                Ok(Attempt::Spent(same, spent))
            }
        }
    }
}
