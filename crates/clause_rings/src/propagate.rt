//! Complete propagation: first the clauses that have come, then the entries of the trail, one after another.

ghost use Rattle.std.specs.Prelude.{IfSome, IfNone};
ghost use Rattle.clause_rings.specs.Clauses.{IsComplete};
ghost use Rattle.clause_rings.specs.Keeping.{Keeps, seen, Advances, IsConflict};

use crate::attach::attach_all;
use crate::walk::walk;
use crate::watches::Watches;

/// Goes on until no clause is false or unit, or answers one that is false.
pub fn propagate(watches: &mut Watches) -> Option<u32>
    requires kept { Keeps watches.old }
    ensures kept { Keeps watches.new }
    ensures advances { Advances (seen watches.old) (seen watches.new) }
    ensures found { IfSome result (IsConflict watches.new) }
    ensures none { IfNone result (IsComplete watches.new.trail.entries watches.new.arena.clauses) }
{
    'entries: loop {
        if let Some(c) = attach_all(watches) {
            return Some(c);
        }
        if watches.head == watches.trail.len() {
            return None;
        }
        if let Some(c) = walk(watches) {
            return Some(c);
        }
        watches.head += 1;
    }
}
