//! The line on the sink for errors.

ghost use Rattle.std.specs.Prelude.{◌≡◌, ◌∷◌, ◌++◌, [], codes, true, IfOk};
ghost use Rattle.std.specs.Fmt.{decimal};
ghost use Rattle.bee_text.specs.Lines.{IsLine};
ghost use Rattle.bee_outside.specs.Bytes.{GrewByFront};
ghost use Rattle.bee_cli.specs.EndLines.{IsSaid, IsReported};

use crate::reason::Reason;
use crate::status::Status;
use bee_outside::{Sink, write_all};
use bee_text::{Lines, end_line, push_bytes, push_number};
use model_texts::ModelFault;
use std::alloc::{AllocError, Global};

/// Says in one line why nothing came of a run, or why a line was refused. A fault of the sink, and want of memory for
/// the line, are passed over.
pub fn report<E: Sink>(alloc: Global, status: &Status, reason: Option<Reason>, err: &mut E)
    ensures { IsReported status.now (E.taken err.old) (E.taken err.new) }
{
    match status {
        Status::Done | Status::Unknown(_) => {}
        Status::Refused(line) => {
            if let Some(reason) = reason {
                say_refusal(alloc, *line, reason, err);
            }
        }
        Status::Usage => say(
            err,
            b"bee: usage: bee MODE INPUT [SECOND] [--budget N] [--no-restart]\n",
        ),
        Status::Model(fault) => say_fault(alloc, fault, err),
        Status::NoObjective => say(err, b"bee: model: no objective\n"),
        Status::TwoObjectives => say(err, b"bee: model: two objectives\n"),
        Status::Read => say(err, b"bee: read fault\n"),
        Status::Write => say(err, b"bee: write fault\n"),
        Status::Memory => say(err, b"bee: out of memory\n"),
    }
}

/// Writes a line, or a front of it where the sink fails.
fn say<E: Sink>(err: &mut E, line: &[u8])
    ensures { GrewByFront (E.taken err.old) line.now (E.taken err.new) }
{
    let _ = write_all(err, line);
}

/// Whether a text has no line feed.
fn is_line(text: &[u8]) -> bool
    ensures { result ≡ true → IsLine text.now }
{
    Lines::new(text).next_line().is_none()
}

/// Words of one line, behind a start.
fn spoken(start: Vec<u8>, words: &[u8]) -> Result<Vec<u8>, AllocError>
    ensures { IfOk result (λ text. text.items ≡ start.items ++ words.now ++ 10 ∷ []) }
{
    let mut text = start;
    push_bytes(&mut text, words)?;
    end_line(&mut text)?;
    Ok(text)
}

/// Writes words behind a start, where they are those of one line and there is memory.
fn say_words<E: Sink>(err: &mut E, start: Vec<u8>, words: &[u8])
    ensures { IsSaid start.items (E.taken err.old) (E.taken err.new) }
{
    if is_line(words) {
        if let Ok(text) = spoken(start, words) {
            say(err, text.as_slice());
        }
    }
}

/// How the line of a fault begins.
fn fault_start(alloc: Global) -> Result<Vec<u8>, AllocError>
    ensures { IfOk result (λ text. text.items ≡ codes "bee: ") }
{
    let mut text = Vec::new(alloc);
    push_bytes(&mut text, b"bee: ")?;
    Ok(text)
}

/// How that of a refused line begins.
fn refusal_start(alloc: Global, line: u64) -> Result<Vec<u8>, AllocError>
    ensures { IfOk result (λ text. text.items ≡ codes "bee: line " ++ decimal line ++ codes ": ") }
{
    let mut text = Vec::new(alloc);
    push_bytes(&mut text, b"bee: line ")?;
    push_number(&mut text, u128::from(line))?;
    push_bytes(&mut text, b": ")?;
    Ok(text)
}

/// Says what fault the first text has.
fn say_fault<E: Sink>(alloc: Global, fault: &ModelFault, err: &mut E)
    ensures { IsSaid (codes "bee: ") (E.taken err.old) (E.taken err.new) }
{
    if let Ok(start) = fault_start(alloc) {
        if let Ok(words) = format!(in alloc; "{fault}") {
            say_words(err, start, words.as_bytes());
        }
    }
}

/// Says why a line is refused.
fn say_refusal<E: Sink>(alloc: Global, line: u64, reason: Reason, err: &mut E)
    ensures { IsSaid (codes "bee: line " ++ decimal line ++ codes ": ") (E.taken err.old) (E.taken err.new) }
{
    if let Ok(start) = refusal_start(alloc, line) {
        if let Ok(words) = format!(in alloc; "{reason}") {
            say_words(err, start, words.as_bytes());
        }
    }
}
