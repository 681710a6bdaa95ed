//! Who is told how a conflict is sought.

use decode_minimize::SolutionWatcher;
use model_meaning::{Assignment, Decl, Goal};
use search_watcher::{Silent, Watcher};

/// Who is told how a conflict is sought: how many clauses were learned, by all queries together, and how small a part
/// without a solution is by now. It changes nothing of what is asked.
pub trait ConflictWatcher: Watcher {
    /// So many queries were replied to, and the smallest part that is known to have no solution has so many
    /// statements; all, while none is known.
    fn asked(&mut self, left: usize, questions: u64);
}

impl ConflictWatcher for Silent {
    fn asked(&mut self, _left: usize, _questions: u64) {}
}

/// Hands on what one query learns, and hears of no solution.
#[derive(Drop)]
pub(crate) struct Overheard<'a, W: ConflictWatcher> {
    pub(crate) watcher: &'a mut W,
}

impl<W: ConflictWatcher> Watcher for Overheard<'_, W> {
    fn learned(&mut self, count: u64) {
        self.watcher.learned(count);
    }
}

impl<W: ConflictWatcher> SolutionWatcher for Overheard<'_, W> {
    ghost heard = { λ _ _ _. Unit {0} };

    fn listens(&self) -> bool {
        false
    }

    fn better(&mut self, _decls: &[Decl], _goal: Goal, _solution: &Assignment) {}
}
