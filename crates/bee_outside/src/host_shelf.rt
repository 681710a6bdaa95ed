//! The shelf over real files and standard input.

ghost use Rattle.std.specs.Prelude.{◌≡◌, ◌≤◌, None, length, IfOk};
ghost use Rattle.bee_outside.specs.Faults.{counted};

use crate::failed::Failed;
use crate::names::place_of;
use crate::shelf::Shelf;
use std::alloc::Global;
use std::io::Read;
use std::marker::Model;
use std::rt::Files;
use std::{fs, io};

/// The name under which standard input stands. A file of that name is written `./stdin`.
const STANDARD_INPUT: &str = "stdin";

/// Files by their paths, and a reader, mostly standard input, under the name `stdin`. A file stays open
/// from the first call with its name on, so a later reading goes on where an earlier one ended. It tells
/// no bytes. It counts each failed reading and opening as a fault, also where memory is wanting for an
/// opening. A clause sees it as the number of its faults.
#[derive(Drop)]
pub struct HostShelf<R: Files, I: Read> {
    alloc: Global,
    runtime: R,
    input: I,
    open: Vec<(String, R::File)>,
    faults: u64,
}

impl<R: Files, I: Read> Model for HostShelf<R, I> {
    ghost use Rattle.std.specs.Prelude.{ℕ};

    ghost Value = { ℕ };

    ghost view = { λ s. s.faults };
}

impl<R: Files, I: Read> HostShelf<R, I> {
    /// The shelf over the runtime's files and the reader that stands for `stdin`.
    pub fn new(alloc: Global, runtime: R, input: I) -> HostShelf<R, I>
        ensures { result ≡ 0 }
    {
        HostShelf {
            alloc,
            runtime,
            input,
            open: Vec::new(alloc),
            faults: 0,
        }
    }

    /// How many faults there were.
    pub fn faults(&self) -> u64
        ensures { result ≡ self.now }
    {
        self.faults
    }

    /// Reads on in the file of that path, which it opens where it isn't open yet.
    fn read_file(&mut self, path: &str, into: &mut [u8]) -> io::Result<usize>
        ensures fits { IfOk result (λ k. k ≤ length into.old) }
        ensures count_stays { self.new ≡ self.old }
    {
        let place = match place_of(self.open.as_slice(), path) {
            Some(place) => place,
            None => {
                let file = fs::open(&self.runtime, path)?;
                let name = String::from_str(self.alloc, path)?;
                let place = self.open.len();
                self.open.push((name, file))?;
                place
            }
        };
        let file = &mut self.open[place].1;
        file.read(into)
    }
}

impl<R: Files, I: Read> Shelf for HostShelf<R, I> {
    ghost left = { λ _ _. None };

    ghost faults = { λ s _. s };

    fn next(&mut self, name: &str, into: &mut [u8]) -> Result<usize, Failed>
        ensures no_count_falls { self.old ≤ self.new }
        ensures fits { IfOk result (λ k. k ≤ length into.old) }
        ensures counts_faults { self.new ≡ counted result self.old }
        ensures counts_nothing_else { IfOk result (λ _. self.new ≡ self.old) }
    {
        let read = if name == STANDARD_INPUT {
            self.input.read(into)
        } else {
            self.read_file(name, into)
        };
        match read {
            Ok(size) => Ok(size),
            Err(_) => {
                self.faults = self.faults.saturating_add(1);
                Err(Failed)
            }
        }
    }
}
