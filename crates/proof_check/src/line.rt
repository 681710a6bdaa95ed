//! The lines of a proof.

use bee_list::Sequence;
use order_ints::Lit;

/// A line of a proof, in the form of LRAT (Cruz-Filipe, Heule, Hunt, Kaufmann, Schneider-Kamp, 2017), without
/// the additions that only keep satisfiability. The clauses of the CNF have the ids from 1 on.
#[derive(Drop)]
pub enum ProofLine {
    /// A clause that follows from those that live.
    Add {
        /// Its id, above all before.
        id: u64,
        /// Its literals.
        lits: Sequence<Lit>,
        /// The ids of live clauses: where the clause is denied, each is unit in turn, and the last one refuted.
        hints: Sequence<i64>,
    },
    /// Clauses that are needed no more.
    Delete {
        /// The id that the line begins with, which says nothing.
        at: u64,
        /// The ids of the clauses.
        ids: Sequence<u64>,
    },
}
