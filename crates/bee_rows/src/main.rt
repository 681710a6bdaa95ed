//! Rows of the program's one call, over a shelf and sinks in memory: runs of each mode with all
//! that they read, wrote and ended with.
//!
//! Here is shown what no contract says: the lines on standard error, that runs succeed where memory
//! is there, and that the definitions say what is meant. A row is some lines of a transcript in
//! `data/`, as they would be typed and shown at a terminal; `transcript` says how they are read. So a
//! row costs no proof, and whoever writes one needs no toolchain; a further row of what a mode shows
//! belongs here, and not with the tests of a crate of rows. `args` names the transcripts, and
//! `stdout` says how many runs each makes; what is shown otherwise than its transcript says comes
//! before that, so that the gate refuses it.
//!
//! Contracts leave open in which order solutions are listed, and a walk lists them in ascending
//! order of their values, so the rows of lists have them so. A model whose core is sought has one
//! alone, so that it is known which. What stands behind the solutions of a list, or behind the
//! numbers of a core's statements, isn't compared, but checked. Texts that are to be refused are
//! written by hand from the forms of a list and of a core, each with one cause.
//!
//! For each line of the table of statements there are models with the number of their solutions
//! (`solutions.txt`) and with their weight (`weights.txt`), both counted apart from the program, and
//! small models with the whole texts that they are compiled to (`compiled_models.txt`): a change in
//! the order of queries, of parts or of clauses is seen there first, and the rows then say whether
//! it was meant. Answers and compiled texts are written by hand from `docs/FORMATS.md`, each kind of
//! line once for each cause by which it fails (`answer_checking.txt`, `compiled_texts.txt`).
//!
//! The models of `examples/`, boards of queens, and texts of many bytes are tried by `python/`, over
//! the program that was built; the scripts that fuzz it stand in `reference/`, and are no part of the
//! gate.
#![tactic(auto)]

mod comparison;
mod damage;
mod fronts;
mod outside;
mod run;
mod stage;
mod transcript;

use crate::transcript::play;
use std::{env, fs, io};

/// Plays the transcript in a file, and prints what is shown otherwise, and how many runs there were.
fn play_file(rt: &HostRuntime, name: &str) -> io::Result<()> {
    let text = fs::read_to_string(rt, name)?;
    let told = play(rt.alloc(), text.as_str())?;
    print!(rt; "{told}{name}\n")
}

fn main(rt: HostRuntime) -> io::Result<()> {
    for name in env::args(&rt)?.skip(1) {
        play_file(&rt, name.as_str())?;
    }
    Ok(())
}
