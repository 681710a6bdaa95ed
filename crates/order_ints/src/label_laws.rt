//! Laws of views whose labels label themselves, for proofs of crates above. Each function does nothing;
//! its contract is the law.

ghost use Rattle.order_ints.specs.LabelLaws.{LabelResolves, LabelNegation, LabelsBelow, ResolvesToLabel, ResolvesOnce};
ghost use Rattle.order_ints.specs.LabelLaws.{ResolvesNegation, EmptyLabelled, OwnLabelsLength, OldKeepLabels};
ghost use Rattle.order_ints.specs.LabelLaws.{LabelsStay, AddedLabels, AddedResolve, AddedMet, AddedLabelled};
ghost use Rattle.order_ints.specs.LabelLaws.{MoreIsLater, LaterThanItself, LaterThanLater, LaterResolves, LaterMeets};

/// What labels are, and what atoms resolve to.
pub fn label_law()
    ensures resolves { LabelResolves }
    ensures negation { LabelNegation }
    ensures below { LabelsBelow }
    ensures to_label { ResolvesToLabel }
    ensures once { ResolvesOnce }
    ensures negated { ResolvesNegation }
    ensures empty { EmptyLabelled }
{}

/// What stays where variables are added to a view, each its own label.
pub fn own_labels_law()
    ensures count { OwnLabelsLength }
    ensures old { OldKeepLabels }
    ensures stay { LabelsStay }
    ensures added { AddedLabels }
    ensures resolves { AddedResolve }
    ensures met { AddedMet }
    ensures labelled { AddedLabelled }
{}

/// What a view keeps of one that it is later than.
pub fn later_law()
    ensures itself { LaterThanItself }
    ensures more { MoreIsLater }
    ensures later { LaterThanLater }
    ensures resolves { LaterResolves }
    ensures met { LaterMeets }
{}
