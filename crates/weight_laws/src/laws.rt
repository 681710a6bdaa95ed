//! Laws of weights and of lowering, for proofs of crates above. Each function does nothing; its contract is the law.

ghost use Rattle.weight_laws.specs.StatementLaws.{StatementSizeLaw, StatementExactLaw, StatementCoresLaw};

/// The fresh variables of a statement and the costs of its cores are at most its weight, and exactly its weight where
/// no fresh integer is a linear sum; and its cores are at most one more than their costs.
pub fn statement_law()
    ensures size { StatementSizeLaw }
    ensures exact { StatementExactLaw }
    ensures cores { StatementCoresLaw }
{}
