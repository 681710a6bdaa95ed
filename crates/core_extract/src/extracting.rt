//! Why a model has no solution.

ghost use Rattle.std.specs.Prelude.{◌≡◌, ◌≤◌, ◌<◌, ◌^◌, false, length, replicate, IfOk, IfErr};
ghost use Rattle.model_meaning.specs.WellTyped.{WellTyped};
ghost use Rattle.model_meaning.specs.Limits.{InLimits};
ghost use Rattle.model_lower.specs.Weighed.{most_weight};
ghost use Rattle.model_parts.specs.Only.{numbers_of};
ghost use Rattle.model_parts.specs.CoreWeight.{core_weight};
ghost use Rattle.decode_minimize.specs.Answers.{IsBudget};
ghost use Rattle.core_extract.specs.Parts.{whole_of};
ghost use Rattle.core_extract.specs.Extracted.{IsReduced, IsSpentPart, IsProgress, IsFaultOf};
ghost use Rattle.core_extract.specs.Extracted.{conflict_document, solution_document, spent_document};
ghost use Rattle.core_extract.specs.Extracted.{ExtractsFrom, IsExtractedFrom};
ghost use Rattle.core_extract.specs.Extracted.{IsExtracted};

use crate::choosing::{Choice, make_smaller};
use crate::reduction::{Asked, Reduction, SpentPart, numbers_in, numbers_of_part, question};
use crate::reply::{Asker, Certificate, Reply};
use crate::settling::{Progress, Turn, settle};
use crate::watching::ConflictWatcher;
use crate::witnesses::Witnesses;
use bee_list::Sequence;
use conflict_text::{ConflictDocument, CoreVerdict};
use fixpoint_queue::Oracle;
use model_lower::LowerFault;
use model_meaning::{Assignment, Decl, Model};
use model_parts::{DividedModel, weight_above};
use rule_base::Steps;
use search_options::SearchOptions;
use std::alloc::{AllocError, Global};
use std::cell::{Cell, RefCell};
use std::sync::ledger::Ledger;

/// What is extracted from a model that was used up, and the model's declarations.
#[derive(Drop)]
pub struct ExtractedConflict {
    /// The conflict, or a solution, or how far the search came.
    pub document: ConflictDocument,
    /// The declared names, as the model has them.
    pub decls: Sequence<Decl>,
    /// How many queries were made; each is a compilation. Nothing is promised of it.
    pub questions: u64,
}

/// Tells a model of which a part may weigh too much.
fn weigh_parts(alloc: Global, model: &Model) -> Result<(), LowerFault>
    requires { InLimits model.now }
    ensures light { IfOk result (λ u. core_weight model.now ≤ most_weight) }
    ensures heavy { IfErr result (λ e. IsFaultOf e model.now) }
{
    match weight_above(alloc, model)? {
        None => Ok(()),
        Some(weight) => Err(LowerFault::TooHeavy(weight)),
    }
}

/// The document of a solution.
fn solution_document(alloc: Global, a: Assignment) -> Result<ConflictDocument, AllocError>
    ensures { IfOk result (λ d. d ≡ solution_document a) }
{
    let mut assignments = Vec::new(alloc);
    assignments.push(a)?;
    Ok(ConflictDocument {
        verdict: CoreVerdict::Satisfiable,
        statements: Sequence::from_vec(Vec::new(alloc)),
        ledger: Sequence::from_vec(Vec::new(alloc)),
        proof: Sequence::from_vec(Vec::new(alloc)),
        assignments: Sequence::from_vec(assignments),
    })
}

/// The document of a search that was given up.
fn spent_document(alloc: Global, spent: SpentPart, budget: u64) -> ConflictDocument
    ensures { result ≡ spent_document budget spent }
{
    let SpentPart {
        statements,
        certificate,
    } = spent;
    ConflictDocument {
        verdict: CoreVerdict::Unknown(budget),
        statements,
        ledger: certificate.ledger,
        proof: certificate.proof,
        assignments: Sequence::from_vec(Vec::new(alloc)),
    }
}

/// The document of a conflict.
fn conflict_document(
    numbers: Vec<u64>,
    certificate: Certificate,
    given: Vec<Assignment>,
) -> ConflictDocument
    ensures document { result ≡ conflict_document numbers.items certificate given.items }
    ensures small { length numbers.items < 2 ^ 64 }
{
    let count = numbers.len() as u64;
    ConflictDocument {
        verdict: CoreVerdict::Core(count),
        statements: Sequence::from_vec(numbers),
        ledger: certificate.ledger,
        proof: certificate.proof,
        assignments: Sequence::from_vec(given),
    }
}

/// What is extracted where a search was given up.
fn given_up<F: Oracle<L>, L: Ledger, W: ConflictWatcher>(
    asker: &Asker<'_, F, W>,
    model: DividedModel,
    spent: SpentPart,
) -> ExtractedConflict
    requires budget { IsBudget asker.now.options.budget }
    requires spent { IsSpentPart F.told (whole_of model) asker.now.options spent }
    ensures { ExtractsFrom F.told (whole_of model) asker.now.options result }
{
    ExtractedConflict {
        document: spent_document(asker.alloc, spent, asker.options.budget),
        decls: model.into_decls(),
        questions: asker.asked.get(),
    }
}

/// What is extracted where the model has a solution.
fn solved<F, W: ConflictWatcher>(
    asker: &Asker<'_, F, W>,
    model: DividedModel,
    a: Assignment,
) -> Result<ExtractedConflict, AllocError>
    ensures document { IfOk result (λ e. e.document ≡ solution_document a) }
    ensures decls { IfOk result (λ e. e.decls ≡ (whole_of model).decls) }
{
    let document = solution_document(asker.alloc, a)?;
    Ok(ExtractedConflict {
        document,
        decls: model.into_decls(),
        questions: asker.asked.get(),
    })
}

/// The conflict, where each statement of a part has an assignment that meets all others.
fn conflict_of<F: Oracle<L>, L: Ledger, W: ConflictWatcher>(
    asker: &Asker<'_, F, W>,
    progress: Progress,
) -> Result<ExtractedConflict, AllocError>
    requires progress { IsProgress F.told asker.now.options (length progress.reduction.out.items) progress }
    requires count { length progress.reduction.out.items
        ≡ length (numbers_of (whole_of progress.reduction.model).stmts) }
    ensures { IfOk result (ExtractsFrom F.told (whole_of progress.reduction.model) asker.now.options) }
{
    let Progress { reduction, given } = progress;
    let numbers = numbers_of_part(asker.alloc, &reduction.model)?;
    let Reduction {
        model,
        certificate,
        ..
    } = reduction;
    Ok(ExtractedConflict {
        document: conflict_document(numbers, certificate, given),
        decls: model.into_decls(),
        questions: asker.asked.get(),
    })
}

/// Settles each statement of a part that has no solution.
fn settle_all<F: Oracle<L>, L: Ledger, W: ConflictWatcher>(
    reduction: Reduction,
    asker: &Asker<'_, F, W>,
    numbers: &[u64],
    witnesses: &mut Witnesses,
    steps: &mut Steps<L>,
) -> Result<ExtractedConflict, AllocError>
    requires reduced { IsReduced F.told asker.now.options reduction }
    requires budget { IsBudget asker.now.options.budget }
    requires count { length reduction.out.items ≡ length numbers.now }
    requires numbers { numbers.now ≡ numbers_of (whole_of reduction.model).stmts }
    ensures { IfOk result (ExtractsFrom F.told (whole_of reduction.model) asker.now.options) }
{
    let turn = settle(reduction, asker, numbers, witnesses, steps)?;
    match turn {
        Turn::Next(progress) => conflict_of(asker, progress),
        Turn::Spent(same, spent) => Ok(given_up(asker, same.model, spent)),
    }
}

/// From a part that has no solution to one each of whose statements is needed for that.
fn reduce<F: Oracle<L>, L: Ledger, W: ConflictWatcher>(
    reduction: Reduction,
    asker: &Asker<'_, F, W>,
    numbers: &[u64],
    steps: &mut Steps<L>,
) -> Result<ExtractedConflict, AllocError>
    requires reduced { IsReduced F.told asker.now.options reduction }
    requires budget { IsBudget asker.now.options.budget }
    requires count { length reduction.out.items ≡ length numbers.now }
    requires numbers { numbers.now ≡ numbers_of (whole_of reduction.model).stmts }
    ensures { IfOk result (ExtractsFrom F.told (whole_of reduction.model) asker.now.options) }
{
    let mut witnesses = Witnesses::new(asker.alloc, numbers.len())?;
    let choice = make_smaller(reduction, asker, numbers, &mut witnesses, steps)?;
    match choice {
        Choice::Part(smaller) => settle_all(smaller, asker, numbers, &mut witnesses, steps),
        Choice::Spent(same, spent) => Ok(given_up(asker, same.model, spent)),
    }
}

/// So many marks, none of which is set.
fn unset(alloc: Global, count: usize) -> Result<Vec<bool>, AllocError>
    ensures { IfOk result (λ marks. marks.items ≡ replicate count false) }
{
    let marks = vec![in alloc; false; count]?;
    Ok(marks)
}

/// What is extracted from a model none of whose parts is too heavy.
fn extract_light<F: Oracle<L>, L: Ledger, W: ConflictWatcher>(
    asker: &Asker<'_, F, W>,
    model: Model,
    steps: &mut Steps<L>,
) -> Result<ExtractedConflict, AllocError>
    requires typed { WellTyped model }
    requires limits { InLimits model }
    requires budget { IsBudget asker.now.options.budget }
    ensures { IfOk result (IsExtractedFrom F.told model asker.now.options) }
{
    let stmts = model.stmts.as_slice();
    let numbers = numbers_in(asker.alloc, stmts)?;
    let out = unset(asker.alloc, numbers.len())?;
    let whole = DividedModel::new(asker.alloc, model);
    let asked = question(asker, whole, out.as_slice(), steps)?;
    let Asked {
        model: divided,
        reply,
    } = asked;
    match reply {
        Reply::Solved(a) => solved(asker, divided, a),
        Reply::Refuted(certificate) => {
            let reduction = Reduction {
                model: divided,
                out,
                certificate,
            };
            reduce(reduction, asker, numbers.as_slice(), steps)
        }
        Reply::Spent(certificate) => {
            let spent = SpentPart {
                statements: Sequence::from_vec(numbers),
                certificate,
            };
            Ok(given_up(asker, divided, spent))
        }
    }
}

/// Why a model has no solution: a part of its statements that has none, each of which is needed for that. Or a solution
/// where it has one; or a part of which it is open, where a search spent its budget. Each search has the whole budget,
/// and the goal doesn't matter. What each query learns, and how small the part is behind it, is told to a watcher.
///
/// It fails with the model's weight, and one for each `bool2int` that declares its integer, where that is above
/// 67,108,864; and for want of memory. A query costs a compilation and a search, and the statements are moved for
/// it, in time linear in their number.
pub fn extract<F: Oracle<L>, L: Ledger, W: ConflictWatcher>(
    alloc: Global,
    model: Model,
    options: SearchOptions,
    oracle: F,
    steps: &mut Steps<L>,
    watcher: &RefCell<W>,
) -> Result<ExtractedConflict, LowerFault>
    requires typed { WellTyped model }
    requires limits { InLimits model }
    requires budget { IsBudget options.budget }
    ensures light { IfOk result (λ e. core_weight model ≤ most_weight) }
    ensures extracted { IfOk result (λ e. IsExtracted F.told model options e.document) }
    ensures decls { IfOk result (λ e. e.decls ≡ model.decls) }
    ensures heavy { IfErr result (λ e. IsFaultOf e model) }
{
    weigh_parts(alloc, &model)?;
    let asker = Asker {
        alloc,
        options,
        oracle,
        asked: Cell::new(0),
        left: Cell::new(model.stmts.len()),
        watcher,
    };
    let extracted = extract_light(&asker, model, steps)?;
    Ok(extracted)
}
