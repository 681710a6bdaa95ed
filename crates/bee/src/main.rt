//! The program `bee`: hands the words of the command line, the files and the standard streams to
//! the one call `run` of `bee_cli`, and exits with the code of its status.
//!
//! It is kept so small because nothing proves it to do what it says: `main` has no contract, and
//! with `HostShelf` and `HostSink` of `bee_outside` it is the part that one reads and believes.
//! What it decides itself is only what comes of words that cannot be had: one that is no text is
//! `Usage`, as any word that asks for nothing, and want of memory for the words is `Memory`.
//!
//! All promises are those of `run`; the stored run beside this crate (`args`, `stdout`) is the
//! eight queens, which `./bee` runs at the end of a build. Nothing belongs in here that could stand
//! in `bee_cli`.
#![tactic(auto)]

use bee_cli::{Status, code, report, run};
use bee_outside::{HostShelf, HostSink, Sink};
use std::alloc::Global;
use std::process::ExitCode;
use std::{env, io};

/// The status where the words of the command line can't be had: one that is no text is no word of the
/// command.
fn refused(error: &io::Error) -> Status {
    if error.kind() == io::ErrorKind::OutOfMemory {
        Status::Memory
    } else {
        Status::Usage
    }
}

/// Ends before the call, and says why.
fn ended<E: Sink>(alloc: Global, status: &Status, err: &mut E) -> ExitCode {
    report(alloc, status, None, err);
    ExitCode::from(code(status))
}

fn main(rt: HostRuntime) -> ExitCode {
    let alloc = rt.alloc();
    let mut err = HostSink::new(rt.stderr());
    let words = match env::args(&rt) {
        Ok(words) => words.collect(alloc),
        Err(error) => return ended(alloc, &refused(&error), &mut err),
    };
    let Ok(words) = words else {
        return ended(alloc, &Status::Memory, &mut err);
    };
    let mut shelf = HostShelf::new(alloc, &rt, rt.reader());
    let mut out = HostSink::new(rt.stdout());
    let status = run(alloc, &words, &mut shelf, &mut out, &mut err);
    ExitCode::from(code(&status))
}
