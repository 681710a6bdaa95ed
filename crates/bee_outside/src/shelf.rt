//! What a program reads from.

ghost use Rattle.std.specs.Prelude.{◌≡◌, ◌≢◌, ℕ, ◌≤◌, ◌<◌, ◌↔◌, List, [], take, drop};
ghost use Rattle.std.specs.Prelude.{length, IfOk, OnErr, IfSome};
ghost use Rattle.bee_outside.specs.Faults.{counted};
ghost use Rattle.bee_outside.specs.Bytes.{IsTold, in_front};

use crate::failed::Failed;

/// Texts under names, read from the front piece by piece. It has two meanings: the bytes that are left
/// under each name, which an implementation may leave untold, and under each name a count of faults. A
/// caller learns of a fault only under the name that it asked for.
pub trait Shelf {
    ghost use Rattle.std.specs.Prelude.{ℕ, List, Option};

    ghost left: { Self → List ℕ → Option (List ℕ) };

    ghost faults: { Self → List ℕ → ℕ };

    /// Moves the next bytes left under the name to the front of `into`, and answers how many. A name that
    /// can't be opened is a fault. After a fault, and behind the bytes that came where the name is untold,
    /// nothing is said of `into`.
    fn next(&mut self, name: &str, into: &mut [u8]) -> Result<usize, Failed>
        ensures no_count_falls { (other : List ℕ) → faults self.old other ≤ faults self.new other }
        ensures others_stay { (other : List ℕ) → other ≢ name.now →
            left self.new other ≡ left self.old other }
        ensures told_stays { IsTold (left self.new name.now) ↔ IsTold (left self.old name.now) }

        // What came is the front of what was left. It is nothing exactly at the end.
        ensures fits { IfOk result (λ k. k ≤ length into.old) }
        ensures moves { IfOk result (λ k.
            left self.old name.now ≡ in_front (take k into.new) (left self.new name.now)) }
        ensures end { IfOk result (λ k. IfSome (left self.old name.now) (λ bytes.
            0 < length into.old → (k ≡ 0) ↔ (bytes ≡ []))) }
        ensures rest_stays { IfOk result (λ k. IsTold (left self.old name.now) →
            drop k into.new ≡ drop k into.old) }

        // A fault takes nothing. Each fault is counted, and nothing else is.
        ensures fault_takes_nothing { OnErr result (left self.new name.now ≡ left self.old name.now) }
        ensures counts_faults { faults self.new name.now ≡ counted result (faults self.old name.now) }
        ensures counts_nothing_else { IfOk result (λ _. (other : List ℕ) →
            faults self.new other ≡ faults self.old other) };
}
