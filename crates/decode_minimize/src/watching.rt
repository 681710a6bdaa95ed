//! Who is told of solutions while better ones are sought.

use model_meaning::{Assignment, Decl, Goal};
use search_watcher::{Silent, Watcher};

/// Who is told how a search goes: how many clauses were learned, and each solution that is better than all before it.
/// What may be told of solutions is its ghost member: of the declarations, the goal and the values of the names in
/// their order, which give the objectives their values (`objective`). Whoever calls it shows that, so where nothing is
/// known of the member but that solutions of a model are heard, it is told solutions of that model alone.
pub trait SolutionWatcher: Watcher {
    ghost use Rattle.std.specs.Prelude.{List, ℤ};
    ghost use Rattle.model_meaning.specs.declared.model.Decl.{Decl};
    ghost use Rattle.model_meaning.specs.declared.model.Goal.{Goal};

    ghost heard: { List Decl → Goal → List ℤ → Type 0 };

    /// Whether it wants to be told of solutions. Where it doesn't, none is decoded for it.
    fn listens(&self) -> bool;

    /// This solution is better than all before it.
    fn better(&mut self, decls: &[Decl], goal: Goal, solution: &Assignment)
        requires { heard decls.now goal solution.now.values };
}

impl SolutionWatcher for Silent {
    ghost heard = { λ _ _ _. Unit {0} };

    fn listens(&self) -> bool {
        false
    }

    fn better(&mut self, _decls: &[Decl], _goal: Goal, _solution: &Assignment) {}
}
