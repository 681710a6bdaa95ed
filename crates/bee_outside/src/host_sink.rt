//! The sink over a real stream.

ghost use Rattle.std.specs.Prelude.{◌≡◌, ◌≤◌, ◌<◌, None, length, IfOk};
ghost use Rattle.bee_outside.specs.Faults.{counted};

use crate::failed::Failed;
use crate::sink::Sink;
use std::io::Write;
use std::marker::Model;

/// A writer, mostly standard output or standard error. It tells no bytes, and counts each failed writing
/// and flushing as a fault, also a writing that takes nothing. A clause sees it as the number of its
/// faults.
#[derive(Drop)]
pub struct HostSink<W: Write> {
    writer: W,
    faults: u64,
}

impl<W: Write> Model for HostSink<W> {
    ghost use Rattle.std.specs.Prelude.{ℕ};

    ghost Value = { ℕ };

    ghost view = { λ s. s.faults };
}

impl<W: Write> HostSink<W> {
    /// The sink over a writer.
    pub fn new(writer: W) -> HostSink<W>
        ensures { result ≡ 0 }
    {
        HostSink { writer, faults: 0 }
    }

    /// How many faults there were.
    pub fn faults(&self) -> u64
        ensures { result ≡ self.now }
    {
        self.faults
    }
}

impl<W: Write> Sink for HostSink<W> {
    ghost taken = { λ _. None };

    ghost flushed = { λ _. None };

    ghost faults = { λ s. s };

    fn put(&mut self, piece: &[u8]) -> Result<usize, Failed>
        ensures fits { IfOk result (λ k. k ≤ length piece.now) }
        ensures takes_some { IfOk result (λ k. 0 < length piece.now → 1 ≤ k) }
        ensures empty { length piece.now ≡ 0 → result ≡ Ok 0 }
        ensures counts_faults { self.new ≡ counted result self.old }
    {
        if piece.is_empty() {
            return Ok(0);
        }
        match self.writer.write(piece) {
            Ok(size) if size > 0 => Ok(size),
            _ => {
                self.faults = self.faults.saturating_add(1);
                Err(Failed)
            }
        }
    }

    fn flush(&mut self) -> Result<(), Failed>
        ensures counts_faults { self.new ≡ counted result self.old }
    {
        match self.writer.flush() {
            Ok(()) => Ok(()),
            Err(_) => {
                self.faults = self.faults.saturating_add(1);
                Err(Failed)
            }
        }
    }
}
