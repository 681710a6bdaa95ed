//! Clauses.

use crate::literal::Lit;
use bee_list::Sequence;

/// A conjunction of clauses over the variables 1 to `vars`. A clause is a disjunction of literals.
#[derive(Drop)]
pub struct Cnf {
    /// How many variables there are.
    pub vars: u32,
    /// The clauses, each a list of literals.
    pub clauses: Sequence<Sequence<Lit>>,
}
