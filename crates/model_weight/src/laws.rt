//! Laws of weights, for proofs of crates above. Each function does nothing; its contract is the law.

ghost use Rattle.std.specs.Prelude.{ℕ, ◌+◌, ◌^◌, ◌<◌, ◌≤◌, List, length};
ghost use Rattle.core_cost.specs.declared.shape.Shape.{Shape};
ghost use Rattle.core_cost.specs.Relations.{IsShape, IsWithin, AreWithin};
ghost use Rattle.model_meaning.specs.declared.statement.Relation.{Relation};
ghost use Rattle.model_meaning.specs.declared.model.Model.{Model};
ghost use Rattle.model_meaning.specs.Sizes.{members_of};
ghost use Rattle.model_meaning.specs.Limits.{InLimits};
ghost use Rattle.model_weight.specs.Linear.{weight_of_fresh_sum, weight_of_queue};
ghost use Rattle.model_weight.specs.Weight.{weight_of};

/// A queue whose members have fewer steps, narrower spans or greater divisors, as real fresh sums may have beside their
/// shapes, weighs no more.
pub fn queue_law()
    ensures fresh_sum { (a b p q : Shape) → IsShape a → IsShape b → IsWithin a p → IsWithin b q
        → weight_of_fresh_sum a b ≤ weight_of_fresh_sum p q }
    ensures queue { (times : ℕ) (rel : Relation) (members others : List Shape) → AreWithin members others
        → weight_of_queue times rel members ≤ weight_of_queue times rel others }
{}

/// A model within the limits weighs less than 2^128, so that its weight is exact, where its declarations, its
/// statements and the members of their lists are fewer than 2^45 together; those of a text are fewer than its bytes.
pub fn fits_law()
    ensures { (model : Model) → InLimits model →
        length model.decls + length model.stmts + members_of model.stmts < 2 ^ 45
        → weight_of model < 2 ^ 128 }
{}
