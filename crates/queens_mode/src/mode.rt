//! The mode `queens`.

ghost use Rattle.std.specs.Prelude.{◌≤◌};
ghost use Rattle.text_modes.specs.Seen.{ShelfShown, sink_shown};
ghost use Rattle.text_modes.specs.NoText.{unread};
ghost use Rattle.decode_minimize.specs.Answers.{IsBudget};
ghost use Rattle.decode_minimize.specs.Heard.{HearsAll};
ghost use Rattle.queens_mode.specs.QueensMode.{QueensMode};

use crate::making::place;
use bee_outside::Sink;
use decode_minimize::SolutionWatcher;
use search_options::SearchOptions;
use search_watcher::Silent;
use std::alloc::{AllocError, Global};
use std::cell::RefCell;
use std::marker::Model;
use text_modes::{End, NoText, Outcome, run_none};

/// No text is read, and that of an answer is written.
#[derive(Drop)]
struct Placing<'a, W: SolutionWatcher> {
    options: SearchOptions,
    size: u64,
    watcher: &'a RefCell<W>,
}

impl<'a, W: SolutionWatcher> Model for Placing<'a, W> {
    ghost use Rattle.decode_minimize.specs.Heard.{HearsAll};
    ghost use Rattle.queens_mode.specs.QueensMode.{Task, IsTask};

    ghost Value = { Task };

    ghost view = { λ p. record { options = p.options; size = p.size } };

    ghost invariant = { λ p. IsTask (record { options = p.options; size = p.size }) × HearsAll W.heard };
}

impl<W: SolutionWatcher> NoText for Placing<'_, W> {
    ghost use Rattle.queens_mode.specs.QueensMode.{IsPlaced};

    ghost gives = { λ task. IsPlaced task.options task.size };

    fn make(&self, alloc: Global) -> Result<(Outcome, Vec<u8>), AllocError> {
        match self.watcher.try_borrow_mut() {
            Ok(mut watcher) => place(alloc, self.size, self.options, &mut *watcher),
            Err(_) => place(alloc, self.size, self.options, &mut Silent),
        }
    }
}

/// Makes the model of the queens of a board, seeks an answer to it, makes the whole text of that, and then writes it.
/// The end tells whether the budget was spent. The shelf is not asked, so it shows the same behind the run, whatever
/// that is.
pub fn queens<F, O: Sink, W: SolutionWatcher>(
    alloc: Global,
    size: u64,
    options: SearchOptions,
    out: &mut O,
    watcher: &RefCell<W>,
) -> End<F>
    requires least { 4 ≤ size }
    requires most { size ≤ 24 }
    requires budget { IsBudget options.budget }
    requires heard { HearsAll W.heard }
    ensures { (shelf : ShelfShown) → QueensMode options size result
        (unread shelf (sink_shown O.taken O.flushed O.faults out.old) (sink_shown O.taken O.flushed O.faults out.new)) }
{
    run_none(
        alloc,
        &Placing {
            options,
            size,
            watcher,
        },
        out,
    )
}
