//! How a search is made: one value that goes from the words of the command line down to the solver.
//!
//! A search for values of clauses may take longer than anybody waits for, and nobody can say
//! beforehand how long. So it has a budget, counted in learned clauses and not in seconds, since a
//! count is the same on each machine, a proof can speak of it, and the same words give the same
//! answer twice. And it may be told not to restart: restarts mostly help, but what is found then
//! depends on their schedule, and the greatest number of clauses that a search may learn is stated
//! with them and without (`most_learned` of `learning_solver`).
//!
//! `SearchOptions` is a plain value without a promise: whoever reads words keeps the budget in its
//! limits (`command_words`), and whoever searches says what budget it takes (`IsBudget` of
//! `decode_minimize`). It stands in a crate of its own, which uses no other, so that the words, the
//! mode `sat` and the answers to models have one type for it and hand it on as it is.
//!
//! What is told while a search goes on isn't part of it: nothing that is found depends on that.
#![tactic(auto)]

mod options;

pub use options::SearchOptions;
