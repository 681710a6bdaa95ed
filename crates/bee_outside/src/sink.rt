//! What a program writes to.

ghost use Rattle.std.specs.Prelude.{◌≡◌, ◌≤◌, ◌<◌, ◌↔◌, take, length, IfOk, OnOk, OnErr};
ghost use Rattle.bee_outside.specs.Faults.{counted};
ghost use Rattle.bee_outside.specs.Bytes.{IsTold, grown, AllFlushed};

use crate::failed::Failed;

/// A text that is written piece by piece. It has three meanings: the bytes that it took, how many of
/// them were flushed, both of which an implementation may leave untold, and a count of faults.
pub trait Sink {
    ghost use Rattle.std.specs.Prelude.{ℕ, List, Option};

    ghost taken: { Self → Option (List ℕ) };

    ghost flushed: { Self → Option ℕ };

    ghost faults: { Self → ℕ };

    /// Takes bytes from the front of the piece, at least one where it has any, and answers how many. A piece without
    /// bytes is no fault.
    fn put(&mut self, piece: &[u8]) -> Result<usize, Failed>
        ensures fits { IfOk result (λ k. k ≤ length piece.now) }
        ensures takes_some { IfOk result (λ k. 0 < length piece.now → 1 ≤ k) }
        ensures empty { length piece.now ≡ 0 → result ≡ Ok 0 }
        ensures takes { IfOk result (λ k. taken self.new ≡ grown (taken self.old) (take k piece.now)) }
        ensures flushed_stays { flushed self.new ≡ flushed self.old }
        ensures fault_takes_nothing { OnErr result (taken self.new ≡ taken self.old) }
        ensures counts_faults { faults self.new ≡ counted result (faults self.old) };

    /// Hands all bytes that were taken on to where they belong.
    fn flush(&mut self) -> Result<(), Failed>
        ensures takes_nothing { taken self.new ≡ taken self.old }
        ensures told_stays { IsTold (flushed self.new) ↔ IsTold (flushed self.old) }
        ensures flushes { OnOk result (AllFlushed (taken self.new) (flushed self.new)) }
        ensures counts_faults { faults self.new ≡ counted result (faults self.old) };
}
