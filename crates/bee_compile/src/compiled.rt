//! What a model is compiled to.

use bee_list::Sequence;
use ledger_text::Line;
use model_meaning::Decl;
use name_map::NameMap;
use order_ints::Cnf;

/// A model as clauses, what its names stand for in them, and how they came about.
#[derive(Drop)]
pub struct Compiled {
    /// The clauses, put in order.
    pub cnf: Cnf,
    /// The declared names, as the model has them.
    pub decls: Sequence<Decl>,
    /// An atom or an integer for each declared name, as the last store has them.
    pub map: NameMap,
    /// How many cores were made, by the lowering and by splits: their ids are from 1 to this number.
    pub cores: u64,
    /// The lines that lead from the lowered model to the clauses.
    pub ledger: Sequence<Line>,
}
