//! What an answer says of a model.

/// What a solution has of the objectives of a goal.
#[derive(Clone, Copy)]
pub struct Bounds {
    /// The value of the first objective.
    pub first: i64,
    /// The value of the second one, where the goal has two.
    pub second: Option<i64>,
}

/// The verdict of an answer.
#[derive(Clone, Copy)]
pub enum Verdict {
    /// There is a solution, which the answer gives.
    Satisfiable,
    /// There is no solution.
    Unsatisfiable,
    /// The answer gives a solution with these values of the objectives, and no solution has better ones.
    Optimum(Bounds),
    /// So many clauses were learned, and the search was given up; where a solution is known the answer gives the best
    /// one, which has these values of the objectives.
    Unknown(u64, Option<Bounds>),
}
