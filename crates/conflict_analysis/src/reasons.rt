//! What the analysis reads: the trail, and the clauses that are reasons on it.

ghost use Rattle.std.specs.Prelude.{◌≡◌, ℕ, ◌<◌, ◌≤◌, length};
ghost use Rattle.literal_trail.specs.Trail.{Trail, entry_at, entry_of};
ghost use Rattle.proof_check.specs.Named.{Named};
ghost use Rattle.conflict_analysis.specs.Reasons.{the_entry, level_at};

use clause_arena::Literals;
use literal_trail::Entry;

/// A trail whose reasons are clauses of a store, named by references. Each look-up takes constant time.
pub trait Reasons {
    ghost trail: { Self → Trail };

    ghost named: { Self → ℕ → Named };

    ghost lives: { Self → ℕ → Type 0 };

    /// The number of entries.
    fn len(&self) -> u32
        ensures { result ≡ length (trail self.now).entries };

    /// The entry at a place, counted from 0, the oldest first.
    fn entry_at(&self, place: u32) -> Entry
        requires { place < length (trail self.now).entries }
        ensures { result ≡ entry_at (trail self.now).entries place };

    /// The entry of a variable, none where it is free.
    fn entry_of(&self, var: u32) -> Option<Entry>
        requires { var ≤ (trail self.now).vars }
        ensures { result ≡ entry_of (trail self.now).entries var };

    /// The id of a clause.
    fn id(&self, clause: u32) -> u64
        requires { lives self.now clause }
        ensures { result ≡ (named self.now clause).id };

    /// The literals of a clause, as a list that is lent: each is unpacked where it is looked at.
    fn lits(&self, clause: u32) -> Literals<'_>
        requires { lives self.now clause }
        ensures { result ≡ (named self.now clause).lits };
}

/// The level of a variable, 0 where it is free.
pub fn level_at<T: Reasons>(source: &T, var: u32) -> u32
    requires { var ≤ (T.trail source.now).vars }
    ensures { result ≡ level_at (T.trail source.now).entries var }
{
    match source.entry_of(var) {
        Some(entry) => entry.level,
        None => 0,
    }
}
