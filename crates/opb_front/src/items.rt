//! What a pseudo-Boolean file says.

use bee_list::Sequence;

/// A variable or its negation.
#[derive(Clone, Copy)]
pub struct Literal {
    /// The number of the variable, from 1.
    pub index: u32,
    /// Whether it is the variable itself.
    pub positive: bool,
}

/// A literal with its coefficient, which counts where the literal is true.
#[derive(Clone, Copy)]
pub struct Term {
    /// What the literal adds.
    pub coefficient: i64,
    /// The literal.
    pub literal: Literal,
}

/// How the sum of a constraint stands to its number.
#[derive(Clone, Copy)]
pub enum Comparison {
    /// `>=`
    AtLeast,
    /// `<=`
    AtMost,
    /// `=`
    Equal,
}

/// A constraint.
#[derive(Drop)]
pub struct Constraint {
    /// What is added; a literal may stand in several terms.
    pub terms: Sequence<Term>,
    /// How the sum stands to the number.
    pub comparison: Comparison,
    /// The number.
    pub bound: i64,
}

/// The sum that is to be least.
#[derive(Drop)]
pub struct Objective {
    /// What is added.
    pub terms: Sequence<Term>,
    /// The sum of the negative coefficients.
    pub low: i64,
    /// The sum of the positive coefficients.
    pub high: i64,
}

/// What a file says.
#[derive(Drop)]
pub struct Opb {
    /// The greatest index of a literal, 0 where there is none: the variables are those from 1 to it.
    pub vars: u32,
    /// What is to be least, where there is an objective.
    pub objective: Option<Objective>,
    /// The constraints, in order.
    pub constraints: Sequence<Constraint>,
}
