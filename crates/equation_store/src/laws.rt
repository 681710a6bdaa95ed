//! Laws of the definitions that the clauses of the store cite.

ghost use Rattle.equation_store.specs.Laws.{ResolvesExactly, MergeResolves, MergeKeeps, MergeDoubles};
ghost use Rattle.equation_store.specs.Laws.{MergeNeverShrinks, MergeLabelled, MergeLabels, MergeChanges, MergeTakesOne};
ghost use Rattle.equation_store.specs.Laws.{MergeIsLater, OwnTest, OwnBound, OwnAdded};

/// What resolving tells.
pub fn resolve_law()
    ensures { ResolvesExactly }
{}

/// What a merge keeps.
pub fn merge_laws()
    ensures resolves { MergeResolves }
    ensures keeps { MergeKeeps }
    ensures doubles { MergeDoubles }
    ensures never_shrinks { MergeNeverShrinks }
    ensures labelled { MergeLabelled }
    ensures later { MergeIsLater }
{}

/// What a merge changes: it takes one label away, the loser, and the labels of its class alone.
pub fn change_laws()
    ensures labels { MergeLabels }
    ensures changes { MergeChanges }
    ensures takes_one { MergeTakesOne }
{}

/// How many variables are their own label.
pub fn own_laws()
    ensures test { OwnTest }
    ensures bound { OwnBound }
    ensures added { OwnAdded }
{}
