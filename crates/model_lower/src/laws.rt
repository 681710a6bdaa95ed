//! Laws of lowering, for proofs of crates above. Each function does nothing; its contract is the law.

ghost use Rattle.model_lower.specs.Weighed.{ModelWeightLaws};
ghost use Rattle.model_lower.specs.ItemLaws.{LoweringLaws};

/// The solutions of a model are the assignments that are decoded from its cores and its map of names.
pub fn lowering_law()
    ensures { LoweringLaws }
{}

/// The variables of a lowered model and the costs of its cores are at most the model's weight, and its cores are at
/// most its items and its weight.
pub fn weight_law()
    ensures { ModelWeightLaws }
{}
