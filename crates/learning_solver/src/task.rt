//! What is asked of a search.

use order_ints::Lit;

/// What a call asks.
#[derive(Clone, Copy)]
pub struct Task {
    /// A literal that is to be true, if any.
    pub assumption: Option<Lit>,
    /// How many additions the log may have.
    pub budget: u64,
}
