//! A sink over memory, for tests: it takes small pieces, has room for so many bytes, and fails at chosen
//! calls.

ghost use Rattle.std.specs.Prelude.{◌≡◌, ◌≤◌, ◌<◌, ◌↔◌, length, take, Some, IfOk, OnOk, OnErr};
ghost use Rattle.bee_outside.specs.Faults.{counted};
ghost use Rattle.bee_outside.specs.Bytes.{IsTold, grown, AllFlushed};
ghost use Rattle.bee_outside.specs.MemSink.{fresh_sink, put_answer, after_put, flush_answer, after_flush};

use crate::failed::Failed;
use crate::sink::Sink;
use std::alloc::{AllocError, Global};
use std::marker::Model;

/// A text in memory that grows. It takes at most so many bytes a call as its step says, and the calls of
/// `put` and `flush` whose numbers are listed fail. Both are counted together, from 1; every call from
/// number 18,446,744,073,709,551,615 on has that number. Where its room is full, a piece with bytes
/// fails; one without never does. Its calls take no memory.
#[derive(Drop)]
pub struct MemSink {
    // It has the capacity of the room from the start.
    taken: Vec<u8>,
    flushed: usize,
    room: usize,
    step: usize,
    failing: Vec<u64>,
    calls: u64,
    faults: u64,
}

impl Model for MemSink {
    ghost use Rattle.std.specs.Prelude.{◌≤◌, vec_len, vec_capacity};
    ghost use Rattle.bee_outside.specs.MemSink.{MemSinkState};

    ghost Value = { MemSinkState };

    ghost view = { λ s. record {
      taken = s.taken.items;
      flushed = s.flushed;
      room = s.room;
      step = s.step;
      failing = s.failing.items;
      calls = s.calls;
      faults = s.faults;
    } };

    ghost invariant = { λ s. (1 ≤ s.step) × (vec_len s.taken ≤ s.room) × (s.room ≤ vec_capacity s.taken) };
}

impl MemSink {
    /// A sink that took nothing, with room for so many bytes.
    pub fn with(
        alloc: Global,
        room: usize,
        step: usize,
        failing: Vec<u64>,
    ) -> Result<MemSink, AllocError>
        requires { 1 ≤ step }
        ensures { IfOk result (λ sink. sink ≡ fresh_sink room step failing.items) }
    {
        let taken = Vec::with_capacity(alloc, room)?;
        Ok(MemSink {
            taken,
            flushed: 0,
            room,
            step,
            failing,
            calls: 0,
            faults: 0,
        })
    }

    /// The bytes that it took.
    pub fn taken(&self) -> &[u8]
        ensures { result.now ≡ self.now.taken }
    {
        self.taken.as_slice()
    }

    /// How many of them were flushed.
    pub fn flushed(&self) -> usize
        ensures { result ≡ self.now.flushed }
    {
        self.flushed
    }
}

impl Sink for MemSink {
    ghost taken = { λ s. Some s.taken };

    ghost flushed = { λ s. Some s.flushed };

    ghost faults = { λ s. s.faults };

    fn put(&mut self, piece: &[u8]) -> Result<usize, Failed>
        // What it answers, and what it leaves.
        ensures answer { result ≡ put_answer self.old piece.now }
        ensures after { self.new ≡ after_put self.old piece.now }

        // What every sink keeps.
        ensures fits { IfOk result (λ k. k ≤ length piece.now) }
        ensures takes_some { IfOk result (λ k. 0 < length piece.now → 1 ≤ k) }
        ensures empty { length piece.now ≡ 0 → result ≡ Ok 0 }
        ensures takes { IfOk result (λ k.
            Some self.new.taken ≡ grown (Some self.old.taken) (take k piece.now)) }
        ensures flushed_stays { Some self.new.flushed ≡ Some self.old.flushed }
        ensures fault_takes_nothing { OnErr result (Some self.new.taken ≡ Some self.old.taken) }
        ensures counts_faults { self.new.faults ≡ counted result self.old.faults }
    {
        self.calls = self.calls.saturating_add(1);
        let fails = self.taken.len() >= self.room || self.failing.contains(&self.calls);
        if !piece.is_empty() && fails {
            self.faults = self.faults.saturating_add(1);
            return Err(Failed);
        }
        let room = self.room - self.taken.len();
        let size = piece.len().min(self.step).min(room);
        self.taken.extend_from_slice(&piece[..size]).unwrap();
        Ok(size)
    }

    fn flush(&mut self) -> Result<(), Failed>
        // What it answers, and what it leaves.
        ensures answer { result ≡ flush_answer self.old }
        ensures after { self.new ≡ after_flush self.old }

        // What every sink keeps.
        ensures takes_nothing { Some self.new.taken ≡ Some self.old.taken }
        ensures told_stays { IsTold (Some self.new.flushed) ↔ IsTold (Some self.old.flushed) }
        ensures flushes { OnOk result (AllFlushed (Some self.new.taken) (Some self.new.flushed)) }
        ensures counts_faults { self.new.faults ≡ counted result self.old.faults }
    {
        self.calls = self.calls.saturating_add(1);
        if self.failing.contains(&self.calls) {
            self.faults = self.faults.saturating_add(1);
            return Err(Failed);
        }
        self.flushed = self.taken.len();
        Ok(())
    }
}
