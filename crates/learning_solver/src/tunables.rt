//! The numbers that the search is tuned by. No clause names one, so each may be changed at will.

/// How many conflicts pass before the first deletion of learned clauses.
pub const FIRST_DELETION: u64 = 300;

/// By how many the conflicts between two deletions grow each time.
pub const LONGER_BY: u64 = 20;

/// How many conflicts pass between two deletions where decisions follow a list, without restarts.
pub const DELETION_IN_ORDER: u64 = 100;

/// A clause of so many levels, or of fewer, is never deleted.
pub const GOOD_GLUE: u32 = 2;

/// A clause of so many literals, or of fewer, is never deleted.
pub const SHORT: usize = 2;

/// By how much the first conflict bumps activities.
pub const FIRST_GAIN: u64 = 1 << 10;

/// At each conflict the gain grows by one of so many parts.
pub const GAIN_PARTS: u64 = 19;

/// Past this gain all activities are made smaller.
pub const MOST_GAIN: u64 = 1 << 50;

/// By how many binary digits they are.
pub const SCALE: u32 = 40;

/// How many free variables of the ring are looked at for the most active one.
pub const LOOKED_AT: u32 = 8;

/// And at how many places of the ring at most.
pub const MOST_PLACES: u32 = 256;

/// From how many variables on a heap decides.
pub const LEAST_HEAP: u32 = 50_000;

/// Where a solution is looked for, how many conflicts pass before phases change, and by how many more each time.
pub const PHASE_CHANGE: u64 = 1_000;

/// In how many conflicts a target is decided before it is given up, at least.
pub const PATIENCE: u64 = 20;

/// And in one of so many parts of all conflicts more.
pub const PATIENCE_PARTS: u64 = 32;

/// After how many conflicts literals that are wished for are no longer decided first.
pub const WISH_PATIENCE: u64 = 5_000;
