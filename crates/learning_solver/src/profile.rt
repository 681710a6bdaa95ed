//! The two ways of searching.

/// How a solver searches.
#[derive(Clone, Copy)]
pub enum Profile {
    /// For one solution or none: decisions by activity, deletions at restarts.
    Activity,
    /// For one solution after another: a list of literals is decided first, as it is given, then the ring's first free
    /// variable. No activities are kept, there are no restarts, and deletions come often, in the midst of the search.
    InOrder,
}
