//! Telling of a solution that a round found.

ghost use Rattle.order_ints.specs.Numbers.{numbers_of};
ghost use Rattle.order_ints.specs.Truth.{valuation_of};
ghost use Rattle.state_compile.specs.StandsFor.{read_by};
ghost use Rattle.model_decode.specs.Short.{AreShort};

use crate::solved::Names;
use crate::watching::SolutionWatcher;
use model_decode::decode;

/// Tells a watcher that listens the solution that truth values give. Where memory is wanting for that, it is not told.
pub fn tell<W: SolutionWatcher>(names: &Names<'_>, values: &[bool], watcher: &mut W)
    requires short { AreShort names.now.map.now.entries }
    requires heard { W.heard names.now.decls.now names.now.goal
        (numbers_of (read_by names.now.view.now (valuation_of values.now)) names.now.map.now.entries) }
{
    if watcher.listens() {
        if let Ok(solution) = decode(names.alloc, names.map, names.view, values) {
            watcher.better(names.decls, names.goal, &solution);
        }
    }
}
