//! What a compiled text holds.

use bee_list::Sequence;
use ledger_text::Line;
use name_map::MapEntry;
use order_ints::Cnf;

/// What a compiled text holds.
#[derive(Drop)]
pub struct CnfText {
    /// The declared names, each once, and what they stand for.
    pub entries: Sequence<MapEntry>,
    /// The steps of the compilation.
    pub ledger: Sequence<Line>,
    /// The clauses.
    pub cnf: Cnf,
}
