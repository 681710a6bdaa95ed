//! What stands against a line of what is wished for.

/// What stands against a line: it tells no value of a declared name, or one that isn't in the name's domain.
#[derive(Clone, Copy)]
pub struct RefusedWish;
