//! The program's one call.

ghost use Rattle.std.specs.Prelude.{◌≡◌, ◌≢◌, ◌↔◌, false, Some, map, string_bytes, IsFalse};
ghost use Rattle.command_words.specs.Request.{request_of};
ghost use Rattle.command_words.specs.Limits.{KeepsLimits};
ghost use Rattle.command_words.specs.Line.{request};
ghost use Rattle.text_modes.specs.Seen.{seen, shelf_shown, sink_shown};
ghost use Rattle.decode_minimize.specs.Heard.{HearsAll};
ghost use Rattle.bee_cli.specs.Obeyed.{is_built, Obeys};
ghost use Rattle.bee_cli.specs.Asking.{asks};
ghost use Rattle.bee_cli.specs.EndLines.{IsReported};

use crate::progress::Progress;
use crate::reason::Reasons;
use crate::reporting::report;
use crate::status::{
    Status, bound_status, certify_status, clauses_status, cnf_status, model_status,
};
use all_mode::list_solutions;
use all_solutions::ListWatcher;
use bee_outside::{Shelf, Sink};
use bound_mode::bound;
use certify_mode::certify;
use check_modes::{check, check_all, check_core};
use command_words::{Command, read_command};
use compile_mode::compile;
use core_extract::ConflictWatcher;
use core_mode::core as find_core;
use decode_minimize::SolutionWatcher;
use decode_mode::decode;
use drup_mode::drup;
use opb_mode::{opb, opb_model_text};
use queens_mode::queens;
use resume_mode::{Resuming, resume};
use sat_mode::sat;
use search_watcher::Silent;
use solve_mode::solve;
use std::alloc::{AllocError, Global};
use std::cell::RefCell;
use weigh_mode::weigh;

/// Whether the progress of the search is asked for.
fn asks_progress(command: &Command<'_>) -> bool
    ensures { result ≡ asks (Some (request_of command.now)) }
{
    match command {
        Command::Solve { options, .. }
        | Command::Queens { options, .. }
        | Command::Sat { options, .. }
        | Command::Opb { options, .. }
        | Command::All { options, .. }
        | Command::Core { options, .. }
        | Command::Resume { options, .. } => options.progress,
        Command::Compile { .. }
        | Command::Weigh { .. }
        | Command::Check { .. }
        | Command::Decode { .. }
        | Command::Drup { .. }
        | Command::OpbModel { .. }
        | Command::CheckAll { .. }
        | Command::CheckCore { .. }
        | Command::Bound { .. }
        | Command::Certify { .. } => false,
    }
}

/// What comes of a command. Why a line is refused is put into a cell, and who watches a search stands in one.
fn obey<S: Shelf, O: Sink, W: SolutionWatcher + ListWatcher + ConflictWatcher>(
    alloc: Global,
    command: &Command<'_>,
    shelf: &mut S,
    out: &mut O,
    reasons: &Reasons,
    watcher: &RefCell<W>,
) -> Status
    requires limits { KeepsLimits (request_of command.now) }
    requires heard { HearsAll W.heard }
    ensures usage { result ≢ Status.Memory →
        (result ≡ Status.Usage) ↔ IsFalse (is_built (Some (request_of command.now))) }
    ensures obeys { Obeys (Some (request_of command.now)) result (seen (shelf_shown S.left S.faults)
        (sink_shown O.taken O.flushed O.faults) shelf.old shelf.new out.old out.new) }
{
    match command {
        Command::Compile { input } => model_status(compile(alloc, input, shelf, out)),
        Command::Weigh { input } => model_status(weigh(alloc, input, shelf, out)),
        Command::Solve { input, options } => {
            model_status(solve(alloc, input, options.search, shelf, out, watcher))
        }
        Command::Check { input, second } => {
            model_status(check(alloc, input, second, shelf, out, &reasons.answer))
        }
        Command::Decode { input, second } => {
            cnf_status(decode(alloc, input, second, shelf, out, &reasons.values))
        }
        Command::Queens { size, options } => {
            model_status(queens(alloc, *size, options.search, out, watcher))
        }
        Command::Sat { input, options } => {
            clauses_status(sat(alloc, input, options.search, shelf, out, watcher))
        }
        Command::Drup { input, second } => {
            clauses_status(drup(alloc, input, second, shelf, out, &reasons.proof))
        }
        Command::OpbModel { input } => model_status(opb_model_text(alloc, input, shelf, out)),
        Command::Opb { input, options } => {
            model_status(opb(alloc, input, options.search, shelf, out, watcher))
        }
        Command::All { input, options } => {
            model_status(list_solutions(alloc, input, options.search, shelf, out, watcher))
        }
        Command::CheckAll { input, second } => {
            model_status(check_all(alloc, input, second, shelf, out, &reasons.list))
        }
        Command::Core { input, options } => {
            model_status(find_core(alloc, input, options.search, shelf, out, watcher))
        }
        Command::CheckCore { input, second } => {
            model_status(check_core(alloc, input, second, shelf, out, &reasons.core))
        }
        Command::Bound { input, number } => bound_status(bound(alloc, input, *number, shelf, out)),
        Command::Certify { input, second } => {
            certify_status(certify(alloc, input, second, shelf, out, &reasons.finding))
        }
        Command::Resume {
            input,
            second,
            options,
        } => {
            let how = Resuming {
                options: options.search,
                watcher,
                noted: &reasons.wish,
            };
            model_status(resume(alloc, input, second, &how, shelf, out))
        }
    }
}

/// What comes of the words.
#[tactic(auto, using(crate::proofs::Obeyings::keeps, crate::proofs::Told::hears_all))]
fn follow<S: Shelf, O: Sink, E: Sink>(
    alloc: Global,
    words: &[String],
    shelf: &mut S,
    out: &mut O,
    reasons: &Reasons,
    err: &mut E,
) -> Status
    ensures usage { result ≢ Status.Memory →
        (result ≡ Status.Usage) ↔ IsFalse (is_built (request (map string_bytes words.now))) }
    ensures obeys { Obeys (request (map string_bytes words.now)) result (seen (shelf_shown S.left S.faults)
        (sink_shown O.taken O.flushed O.faults) shelf.old shelf.new out.old out.new) }
    ensures quiet { asks (request (map string_bytes words.now)) ≡ false → err.new ≡ err.old }
{
    match read_command(alloc, words) {
        Ok(Some(command)) => {
            if asks_progress(&command) {
                let progress = RefCell::new(Progress::new(alloc, err));
                obey(alloc, &command, shelf, out, reasons, &progress)
            } else {
                obey(alloc, &command, shelf, out, reasons, &RefCell::new(Silent))
            }
        }
        Ok(None) => Status::Usage,
        Err(AllocError) => Status::Memory,
    }
}

/// Does what the words say, from the shelf to `out`, and says on `err` in one line why nothing came of it, or why a
/// line of the second text was refused. A fault of `err` changes no status. The whole text is made before the first
/// byte of it is written, so `out` has a byte of it only where the run ends in `Done` or in `Write`.
pub fn run<S: Shelf, O: Sink, E: Sink>(
    alloc: Global,
    words: &Vec<String>,
    shelf: &mut S,
    out: &mut O,
    err: &mut E,
) -> Status
    // The words are refused exactly where they ask for nothing that is built.
    ensures usage { result ≢ Status.Memory →
        (result ≡ Status.Usage) ↔ IsFalse (is_built (request (map string_bytes words.now.items))) }

    // Each mode keeps its own promise, as `CompileMode` with the headline; without one nothing is read or
    // written.
    ensures obeys { Obeys (request (map string_bytes words.now.items)) result (seen (shelf_shown S.left S.faults)
        (sink_shown O.taken O.flushed O.faults) shelf.old shelf.new out.old out.new) }

    // Where no progress is asked for, `err` takes nothing but the one line of the end, or a front of it.
    ensures quiet { asks (request (map string_bytes words.now.items)) ≡ false
        → IsReported result (E.taken err.old) (E.taken err.new) }
{
    let reasons = Reasons::none();
    let status = follow(alloc, words.as_slice(), shelf, out, &reasons, err);
    report(alloc, &status, reasons.told(), err);
    status
}
