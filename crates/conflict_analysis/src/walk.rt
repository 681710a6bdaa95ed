//! The walk down the trail to the first unique implication point.
//!
//! A clause is learned by resolving the conflict with the reasons of literals of the current level, the
//! newest first, until one literal of that level is left (Marques-Silva and Sakallah, 1996; that the first
//! such point is the one to take is from Moskewicz, Madigan, Zhao, Zhang and Malik, 2001). A count of the
//! literals of the level that are still ahead says when that is.

ghost use Rattle.std.specs.Prelude.{◌≡◌, ◌+◌, [], length, replicate, IfOk};
ghost use Rattle.literal_trail.specs.Trail.{IsTrail};
ghost use Rattle.conflict_analysis.specs.Reasons.{AreReasons};
ghost use Rattle.conflict_analysis.specs.Learned.{IsConflict};
ghost use Rattle.conflict_analysis.specs.Resolving.{IsWalked};

use crate::marks::{Mark, Marks};
use crate::meeting::{meet, resolve};
use crate::reasons::Reasons;
use order_ints::Lit;
use smallvec::SmallVec;
use std::alloc::AllocError;

/// Walks down the trail from a conflict, and gives the literal of the current level that is left. What is
/// met and not resolved stays to be looked at; the hints are those of the conflict and of what was resolved,
/// in the order of the walk.
pub fn walk<T: Reasons>(
    marks: &mut Marks,
    hints: &mut SmallVec<u64, 16>,
    source: &T,
    conflict: u32,
    level: u32,
) -> Result<Lit, AllocError>
    requires trail { IsTrail (T.trail source.now) }
    requires reasons { AreReasons (T.trail source.now).entries (T.named source.now) (T.lives source.now) }
    requires live { T.lives source.now conflict }
    requires conflict { IsConflict (T.trail source.now) (T.named source.now conflict).lits }
    requires level { level ≡ (T.trail source.now).level }
    requires blank { marks.old.cells ≡ replicate ((T.trail source.now).vars + 1) Mark.Blank }
    requires hints { hints.old.items ≡ [] }
    ensures walked { IfOk result (λ first.
        IsWalked (T.trail source.now) (T.named source.now) (T.named source.now conflict)
        marks.new.cells hints.new.items first) }
    ensures size { length marks.new.cells ≡ length marks.old.cells }
{
    hints.push(source.id(conflict))?;
    let mut ahead = meet(marks, source, conflict, 0, level)?;
    let mut place = source.len();
    loop {
        place -= 1;
        let entry = source.entry_at(place);
        if marks.is_met(entry.lit.var) {
            ahead -= 1;
            if ahead == 0 {
                return Ok(entry.lit.negated());
            }
            ahead += resolve(marks, hints, source, entry.lit.var, level)?;
        }
    }
}
