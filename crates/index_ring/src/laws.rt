//! Laws of the lists that clauses cite.

ghost use Rattle.index_ring.specs.Laws.{StandsOnce, FreeExactly, LengthsFit, WalkMeets, WalkIsList, UnlinkCloses};
ghost use Rattle.index_ring.specs.Laws.{OthersStay};

/// Where a node stands.
pub fn place_laws()
    ensures once { StandsOnce }
    ensures free { FreeExactly }
    ensures lengths { LengthsFit }
{}

/// What a walk by `first` and `after` meets.
pub fn walk_laws()
    ensures meets { WalkMeets }
    ensures list { WalkIsList }
{}

/// What a node that leaves its ring changes.
pub fn move_laws()
    ensures closes { UnlinkCloses }
    ensures others { OthersStay }
{}
