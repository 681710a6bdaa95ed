//! What a search finds, told on the sink for errors while it goes on.

ghost use Rattle.std.specs.Prelude.{◌≡◌, ◌≤◌, ◌∷◌, ◌++◌, true, length, IfOk, OnOk};
ghost use Rattle.std.specs.Fmt.{decimal, signed_decimal};
ghost use Rattle.model_meaning.specs.Terms.{value_at};
ghost use Rattle.bee_cli.specs.Progress.{objective_words, block_text, count_text, list_text, part_text};
ghost use Rattle.bee_cli.specs.Telling.{IsTelling, IsPiece};

use all_solutions::ListWatcher;
use answer_document::push_values;
use bee_outside::{Failed, Sink, write_all};
use bee_text::{push_blank, push_bytes, push_number, push_signed};
use core_extract::ConflictWatcher;
use decode_minimize::SolutionWatcher;
use model_meaning::{Assignment, Decl, Goal};
use search_watcher::Watcher;
use std::alloc::{AllocError, Global};
use std::snapshot::Snapshot;

/// After how many learned clauses their number is told. It may be changed: no clause names it.
const TOLD_EACH: u64 = 10_000;

/// After how many solutions of a list their number is told. It may be changed: no clause names it.
const LISTED_EACH: usize = 1_000;

/// A watcher over a sink. Each piece is made whole in memory, and then written and flushed; where memory is wanting for
/// one, or the sink fails, it is silent from then on, and nothing else comes of that. What the sink took since the
/// watcher was made is stated lines and blocks of solutions alone, the last of them perhaps a front of one (`telling`).
#[derive(Drop)]
pub(crate) struct Progress<'a, E: Sink> {
    alloc: Global,
    before: Snapshot<E>,
    err: &'a mut E,
    speaks: bool,
    learned: u64,
    ghost telling: { ∥ IsTelling speaks learned (E.taken before.value) (E.taken err.now) ∥₁ },
}

impl<'a, E: Sink> Progress<'a, E> {
    /// A watcher that speaks.
    pub(crate) fn new(alloc: Global, err: &'a mut E) -> Progress<'a, E> {
        Progress {
            alloc,
            before: Snapshot::of(&*err),
            err,
            speaks: true,
            learned: 0,
        }
    }

    /// Writes a piece.
    fn say(&mut self, piece: &[u8])
        requires speaks { self.old.speaks ≡ true }
        requires piece { IsPiece self.old.learned piece.now }
    {
        if let Err(Failed) = write_all(self.err, piece) {
            self.speaks = false;
        }
    }

    /// Writes a piece that was made; where memory was wanting for it, it is silent from then on.
    fn tell(&mut self, made: Result<Vec<u8>, AllocError>)
        requires speaks { self.old.speaks ≡ true }
        requires piece { IfOk made (λ piece. IsPiece self.old.learned piece.items) }
    {
        match made {
            Ok(piece) => self.say(piece.as_slice()),
            Err(AllocError) => self.speaks = false,
        }
    }
}

impl<E: Sink> Watcher for Progress<'_, E> {
    // A second objective's solver counts from 1 again, so the calls are counted here.
    fn learned(&mut self, _count: u64) {
        self.learned = one_more(self.learned);
        if self.speaks && self.learned % TOLD_EACH == 0 {
            let line = count_line(self.alloc, self.learned);
            self.tell(line);
        }
    }
}

impl<E: Sink> SolutionWatcher for Progress<'_, E> {
    ghost use Rattle.bee_cli.specs.Progress.{AreOfSolution};

    ghost heard = { AreOfSolution };

    fn listens(&self) -> bool {
        self.speaks
    }

    fn better(&mut self, decls: &[Decl], goal: Goal, solution: &Assignment) {
        if self.speaks {
            let block = best_block(
                self.alloc,
                decls,
                goal,
                solution.values.as_slice(),
                self.learned,
            );
            self.tell(block);
        }
    }
}

impl<E: Sink> ListWatcher for Progress<'_, E> {
    fn listed(&mut self, count: usize) {
        if count % LISTED_EACH == 0 {
            self.walked(count);
        }
    }

    fn walked(&mut self, count: usize) {
        if self.speaks {
            let line = list_line(self.alloc, count as u64, self.learned);
            self.tell(line);
        }
    }
}

impl<E: Sink> ConflictWatcher for Progress<'_, E> {
    fn asked(&mut self, left: usize, questions: u64) {
        if self.speaks {
            let line = part_line(self.alloc, left as u64, questions);
            self.tell(line);
        }
    }
}

/// One more, as far as 64 bits hold it.
fn one_more(count: u64) -> u64
    ensures { count ≤ result }
{
    count.saturating_add(1)
}

/// The line of how many clauses were learned.
fn count_line(alloc: Global, learned: u64) -> Result<Vec<u8>, AllocError>
    ensures { IfOk result (λ text. text.items ≡ count_text learned) }
{
    let mut out = Vec::new(alloc);
    push_bytes(&mut out, b"bee: ")?;
    push_number(&mut out, u128::from(learned))?;
    push_bytes(&mut out, b" clauses learned\n")?;
    Ok(out)
}

/// Writes a number, and words behind it.
fn push_counted(out: &mut Vec<u8>, count: u64, words: &[u8]) -> Result<(), AllocError>
    ensures { OnOk result (out.new.items ≡ out.old.items ++ decimal count ++ words.now) }
{
    push_number(out, u128::from(count))?;
    push_bytes(out, words)
}

/// The line of how many solutions are listed.
fn list_line(alloc: Global, count: u64, learned: u64) -> Result<Vec<u8>, AllocError>
    ensures { IfOk result (λ text. text.items ≡ list_text count learned) }
{
    let mut out = Vec::new(alloc);
    push_bytes(&mut out, b"bee: ")?;
    push_counted(&mut out, count, b" solutions, ")?;
    push_counted(&mut out, learned, b" clauses learned\n")?;
    Ok(out)
}

/// The line of how small a part without a solution is.
fn part_line(alloc: Global, left: u64, questions: u64) -> Result<Vec<u8>, AllocError>
    ensures { IfOk result (λ text. text.items ≡ part_text left questions) }
{
    let mut out = Vec::new(alloc);
    push_bytes(&mut out, b"bee: ")?;
    push_counted(&mut out, left, b" statements left, ")?;
    push_counted(&mut out, questions, b" questions asked\n")?;
    Ok(out)
}

/// The block of a better solution.
fn best_block(
    alloc: Global,
    decls: &[Decl],
    goal: Goal,
    values: &[i64],
    learned: u64,
) -> Result<Vec<u8>, AllocError>
    requires { length decls.now ≡ length values.now }
    ensures { IfOk result (λ text. text.items ≡ block_text decls.now goal values.now learned) }
{
    let mut out = Vec::new(alloc);
    push_bytes(&mut out, b"bee: best")?;
    push_objective(&mut out, goal, values)?;
    push_bytes(&mut out, b", ")?;
    push_number(&mut out, u128::from(learned))?;
    push_bytes(&mut out, b" clauses learned\n")?;
    push_values(&mut out, decls, values)?;
    Ok(out)
}

/// Writes the values of the objectives, each behind a blank.
fn push_objective(out: &mut Vec<u8>, goal: Goal, values: &[i64]) -> Result<(), AllocError>
    ensures { OnOk result (out.new.items ≡ out.old.items ++ objective_words goal values.now) }
{
    match goal {
        Goal::Satisfy => Ok(()),
        Goal::Minimize(place, None) | Goal::Maximize(place, None) => push_value(out, values, place),
        Goal::Minimize(place, Some(other)) | Goal::Maximize(place, Some(other)) => {
            push_value(out, values, place)?;
            push_value(out, values, other)
        }
    }
}

/// Writes the value at a place, behind a blank.
fn push_value(out: &mut Vec<u8>, values: &[i64], place: usize) -> Result<(), AllocError>
    ensures { OnOk result (out.new.items ≡ out.old.items ++ 32 ∷ signed_decimal (value_at values.now place)) }
{
    push_blank(out)?;
    push_signed(out, i128::from(value_at(values, place)))
}

/// The value at a place, and 0 past the last one.
fn value_at(values: &[i64], place: usize) -> i64
    ensures { result ≡ value_at values.now place }
{
    match values.get(place) {
        Some(value) => *value,
        None => 0,
    }
}
