//! What a search tells while it goes on.

/// Whoever watches a search. It has its own state alone, and changes nothing of the search.
pub trait Watcher {
    /// So many clauses were learned in all.
    fn learned(&mut self, count: u64);
}
