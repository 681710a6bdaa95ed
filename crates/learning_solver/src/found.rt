//! What a search found.

use bee_list::Sequence;

/// The answer of a search.
#[derive(Drop)]
pub enum Found {
    /// Truth values under which the CNF and the assumption are true, that of variable 1 first.
    Sat(Sequence<bool>),
    /// The id of a clause that is empty, or the negated assumption alone.
    Refuted(u64),
    /// As many clauses were added as the budget has.
    Spent,
}
