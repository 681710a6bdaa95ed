//! What a compilation gives.

use bee_list::Sequence;
use ledger_text::Line;
use step_kernel::State;

/// The last state of a compilation, and the ledger of the lines that led there.
#[derive(Drop)]
pub struct CompiledState {
    pub state: State,
    pub ledger: Sequence<Line>,
}
