//! How a search is made.

/// How a search is made.
#[derive(Clone, Copy, PartialEq, Eq)]
pub struct SearchOptions {
    /// How many clauses may be learned, from 1 to 9,223,372,036,854,775,807.
    pub budget: u64,
    /// Whether the search may begin again with what it learned.
    pub restart: bool,
}
