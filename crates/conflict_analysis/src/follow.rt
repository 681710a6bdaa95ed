//! The hints of what lies below the current level: implied variables are resolved, those last that others need.

ghost use Rattle.std.specs.Prelude.{◌≡◌, ◌+◌, length, reverse, OnOk, List, ℕ};
ghost use Rattle.order_ints.specs.declared.literal.Lit.{Lit};
ghost use Rattle.literal_trail.specs.Trail.{IsTrail};
ghost use Rattle.proof_check.specs.Named.{Named};
ghost use Rattle.conflict_analysis.specs.Reasons.{AreReasons};
ghost use Rattle.conflict_analysis.specs.Resolving.{IsFollowing};
ghost use Rattle.conflict_analysis.specs.Seeking.{AreOrdered};

use crate::marks::Marks;
use crate::meeting::resolve;
use crate::reasons::Reasons;
use smallvec::SmallVec;
use std::alloc::AllocError;

/// Resolves the variables of a list that are met, from its end, with their reasons. Each stands behind those that
/// its reason needs, so what is met at last are the variables that stay.
pub fn follow<T: Reasons>(
    marks: &mut Marks,
    hints: &mut SmallVec<u64, 16>,
    source: &T,
    minimiser: &Marks,
    order: &[u32],
) -> Result<(), AllocError>
    requires trail { IsTrail (T.trail source.now) }
    requires reasons { AreReasons (T.trail source.now).entries (T.named source.now) (T.lives source.now) }
    requires size { length marks.old.cells ≡ (T.trail source.now).vars + 1 }
    requires ordered { AreOrdered (T.trail source.now).entries (T.named source.now) marks.old.cells minimiser.now.cells
        order.now }
    ensures followed { OnOk result ((spare : List Lit) (bound : ℕ) (conflict : Named) →
        IsFollowing (T.trail source.now).entries (T.named source.now) spare bound conflict
        minimiser.now.cells order.now marks.old.cells hints.old.items (length order.now) →
        IsFollowing (T.trail source.now).entries (T.named source.now) spare bound conflict
        minimiser.now.cells order.now marks.new.cells hints.new.items 0) }
    ensures size { length marks.new.cells ≡ length marks.old.cells }
{
    for k in (0..order.len()).rev() {
        if marks.is_met(order[k]) {
            resolve(marks, hints, source, order[k], 0)?;
        }
    }
    Ok(())
}
