//! Rows worked out by hand: answers as they are written, what the answers to models with each kind
//! of goal say, and budgets that are spent or suffice.
//!
//! The optimum of a model is worked out by hand; the row has the verdict and the numbers, and the
//! values where one answer alone is right, since the order of decisions is free. A budget that is
//! spent is told with as many clauses, and one that suffices never is. Oracles that tell no equations
//! are asked here, too: the answers must be the same. Which texts are taken for answers, and which
//! line of another one fails, the whole program shows: that is a transcript of `bee_rows`.
//!
//! They stand apart from `answer_document` and `decode_minimize`, so that proving them proves these
//! not anew. A row is a line of a table, and one function takes a row and compares.
#![tactic(auto)]

#[cfg(test)]
mod answers;
#[cfg(test)]
mod models;
#[cfg(test)]
mod optima;
#[cfg(test)]
mod written;
