//! The learned clause: what is met still, first the literal of the current level, then one of the greatest other level.

ghost use Rattle.std.specs.Prelude.{◌≡◌, ◌≢◌, ◌+◌, ◌<◌, ◌≤◌, ◌++◌, ◌∷◌, [], length};
ghost use Rattle.std.specs.Prelude.{OnOk, IfOk};
ghost use Rattle.std.specs.List.{All};
ghost use Rattle.order_ints.specs.Truth.{not_lit};
ghost use Rattle.literal_trail.specs.Trail.{IsTrail};
ghost use Rattle.conflict_analysis.specs.Reasons.{the_entry};
ghost use Rattle.conflict_analysis.specs.Marking.{mark_at};
ghost use Rattle.conflict_analysis.specs.Collecting.{IsLeft, IsFarthest, IsCollected};

use crate::marks::{Mark, Marks};
use crate::reasons::{Reasons, level_at};
use order_ints::Lit;
use std::alloc::AllocError;

/// A variable of the greatest level among those that are met but one, and that level; 0 and 0 where there is none.
fn farthest<T: Reasons>(met: &Marks, source: &T, first: u32) -> (u32, u32)
    requires trail { IsTrail (T.trail source.now) }
    requires size { length met.now.cells ≡ (T.trail source.now).vars + 1 }
    requires left { IsLeft (T.trail source.now) met.now.cells first }
    ensures { IsFarthest (T.trail source.now).entries met.now.cells first result.0 result.1 }
{
    let mut best = 0;
    let mut jump = 0;
    for var in met.touched() {
        if *var != first && met.is_met(*var) {
            let level = level_at(source, *var);
            if level > jump {
                best = *var;
                jump = level;
            }
        }
    }
    (best, jump)
}

/// The literal of a variable that is false.
fn false_lit<T: Reasons>(source: &T, var: u32) -> Lit
    requires { var ≤ (T.trail source.now).vars }
    ensures { result ≡ not_lit (the_entry (T.trail source.now).entries var).lit }
{
    match source.entry_of(var) {
        Some(entry) => entry.lit.negated(),
        None => Lit {
            var: 0,
            positive: true,
        },
    }
}

/// Makes the clause of what is met, into an empty vector, and gives the greatest level of the literals behind the
/// first.
pub fn collect<T: Reasons>(
    lits: &mut Vec<Lit>,
    met: &Marks,
    source: &T,
    first: Lit,
) -> Result<u32, AllocError>
    requires trail { IsTrail (T.trail source.now) }
    requires size { length met.now.cells ≡ (T.trail source.now).vars + 1 }
    requires left { IsLeft (T.trail source.now) met.now.cells first.var }
    requires first { first ≡ not_lit (the_entry (T.trail source.now).entries first.var).lit }
    requires empty { lits.old.items ≡ [] }
    ensures { IfOk result (λ jump. IsCollected (T.trail source.now) met.now.cells first lits.new.items jump) }
{
    let (best, jump) = farthest(met, source, first.var);
    lits.push(first)?;
    if jump > 0 {
        lits.push(false_lit(source, best))?;
    }
    for var in met.touched() {
        if *var != first.var && *var != best && met.is_met(*var) {
            lits.push(false_lit(source, *var))?;
        }
    }
    Ok(jump)
}

/// The number of levels of a clause's literals. Levels that are counted get a mark of their own.
pub fn count_levels<T: Reasons>(
    levels: &mut Marks,
    source: &T,
    lits: &[Lit],
) -> Result<u32, AllocError>
    requires { All (λ l. l.var ≤ (T.trail source.now).vars) lits.now }
    ensures { length levels.new.cells ≡ length levels.old.cells }
{
    let mut glue: u32 = 0;
    for l in lits {
        let level = level_at(source, l.var);
        if (level as usize) < levels.len() && !matches!(levels.at(level), Mark::Kept) {
            levels.set(level, Mark::Kept)?;
            glue = glue.saturating_add(1);
        }
    }
    Ok(glue)
}

/// Marks the levels of what is met, and level 0.
pub fn mark_levels<T: Reasons>(
    levels: &mut Marks,
    met: &Marks,
    source: &T,
) -> Result<(), AllocError>
    requires size { length met.now.cells ≡ (T.trail source.now).vars + 1 }
    requires some { 0 < length levels.old.cells }
    ensures bottom { OnOk result (mark_at levels.new.cells 0 ≢ Mark.Blank) }
    ensures size { length levels.new.cells ≡ length levels.old.cells }
{
    levels.set(0, Mark::Met)?;
    for var in met.touched() {
        let level = level_at(source, *var);
        if met.is_met(*var) && (level as usize) < levels.len() {
            levels.set(level, Mark::Met)?;
        }
    }
    Ok(())
}
