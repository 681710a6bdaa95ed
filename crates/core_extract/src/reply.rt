//! One query: whether a model has a solution.

ghost use Rattle.std.specs.Prelude.{◌≡◌, IfOk};
ghost use Rattle.model_meaning.specs.WellTyped.{WellTyped};
ghost use Rattle.model_meaning.specs.Limits.{InLimits};
ghost use Rattle.model_meaning.specs.declared.model.Goal.TheVariants.{Satisfy};
ghost use Rattle.decode_minimize.specs.Answers.{IsBudget, IsAnswer};
ghost use Rattle.core_extract.specs.Extracted.{reply_of, IsReply};

use crate::watching::{ConflictWatcher, Overheard};
use answer_document::{Document, Verdict};
use bee_list::Sequence;
use decode_minimize::answer_watched;
use fixpoint_queue::Oracle;
use ledger_text::Line;
use model_lower::LowerFault;
use model_meaning::{Assignment, Model};
use proof_check::ProofLine;
use rule_base::Steps;
use search_options::SearchOptions;
use search_watcher::Silent;
use std::alloc::{AllocError, Global};
use std::cell::{Cell, RefCell};
use std::sync::ledger::Ledger;

/// How queries are made: with which budget for each, and by which rules.
#[derive(Drop)]
pub(crate) struct Asker<'a, F, W: ConflictWatcher> {
    /// Where memory is taken.
    pub(crate) alloc: Global,
    /// The budget of each search, and whether it is begun anew from time to time.
    pub(crate) options: SearchOptions,
    /// What tells equations.
    pub(crate) oracle: F,
    /// How many queries were made.
    pub(crate) asked: Cell<u64>,
    /// How many statements the smallest part has that is known to have no solution; all, while none is known.
    pub(crate) left: Cell<usize>,
    /// Who is told.
    pub(crate) watcher: &'a RefCell<W>,
}

/// Which way a model was compiled, and what was derived from its clauses.
#[derive(Drop)]
pub struct Certificate {
    /// The steps of the compilation.
    pub ledger: Sequence<Line>,
    /// The derivation.
    pub proof: Sequence<ProofLine>,
}

/// What is replied to a query.
#[derive(Drop)]
pub enum Reply {
    /// The model has this solution.
    Solved(Assignment),
    /// It has none.
    Refuted(Certificate),
    /// The budget was spent.
    Spent(Certificate),
}

/// What a document says.
fn reply_of(document: Document) -> Reply
    ensures { result ≡ reply_of document }
{
    let Document {
        verdict,
        assignment,
        ledger,
        proof,
        ..
    } = document;
    let certificate = Certificate { ledger, proof };
    match verdict {
        Verdict::Unsatisfiable => Reply::Refuted(certificate),
        Verdict::Unknown(_, _) => Reply::Spent(certificate),
        Verdict::Satisfiable | Verdict::Optimum(_) => match assignment {
            Some(a) => Reply::Solved(a),
            None => Reply::Spent(certificate),
        },
    }
}

/// The answer to a model, whose learned clauses a watcher in a cell is told. Where the cell is in use, which it isn't,
/// nobody is.
fn heard_answer<F: Oracle<L>, L: Ledger, W: ConflictWatcher>(
    asker: &Asker<'_, F, W>,
    model: &Model,
    steps: &mut Steps<L>,
) -> Result<Document, LowerFault>
    requires typed { WellTyped model.now }
    requires limits { InLimits model.now }
    requires budget { IsBudget asker.now.options.budget }
    ensures { IfOk result (λ d. IsAnswer F.told model.now asker.now.options d steps.old steps.new) }
{
    match asker.watcher.try_borrow_mut() {
        Ok(mut watcher) => {
            let mut overheard = Overheard {
                watcher: &mut *watcher,
            };
            let heard = &mut overheard;
            answer_watched(
                asker.alloc,
                model,
                asker.options,
                asker.oracle,
                steps,
                heard,
            )
        }
        Err(_) => answer_watched(
            asker.alloc,
            model,
            asker.options,
            asker.oracle,
            steps,
            &mut Silent,
        ),
    }
}

/// Tells how small a part without a solution is behind a reply.
fn tell<F, W: ConflictWatcher>(asker: &Asker<'_, F, W>, model: &Model, reply: &Reply) {
    if let Reply::Refuted(_) = reply {
        asker.left.set(model.stmts.len());
    }
    if let Ok(mut watcher) = asker.watcher.try_borrow_mut() {
        watcher.asked(asker.left.get(), asker.asked.get());
    }
}

/// Asks whether a model has a solution. It costs a compilation and a search.
pub(crate) fn ask<F: Oracle<L>, L: Ledger, W: ConflictWatcher>(
    asker: &Asker<'_, F, W>,
    model: &Model,
    steps: &mut Steps<L>,
) -> Result<Reply, AllocError>
    requires typed { WellTyped model.now }
    requires limits { InLimits model.now }
    requires goal { model.now.goal ≡ Satisfy }
    requires budget { IsBudget asker.now.options.budget }
    ensures { IfOk result (IsReply F.told model.now asker.now.options) }
{
    asker.asked.set(asker.asked.get().saturating_add(1));
    match heard_answer(asker, model, steps) {
        Ok(document) => {
            let reply = reply_of(document);
            tell(asker, model, &reply);
            Ok(reply)
        }
        Err(_) => Err(AllocError),
    }
}
