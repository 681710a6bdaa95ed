//! From a model to its answer: the model is compiled, its clauses are solved, and an objective is
//! improved round by round.
//!
//! The first round asks for any values. Each further one asks, under one assumption, for values
//! that break the bound "no value is better" at the best so far; where there are none, what was
//! learned is the bound as a clause, or the empty clause, which is just what an optimum must show.
//! So nothing is solved twice: what was learned, phases and the order of decisions live on. Each
//! round that finds values leaves fewer, and their number bounds the rounds. A second objective
//! gets a new solver over the same clauses and one more, that the first is no worse.
//!
//! What `answer`, `answer_owned_watched` and `answer_wished` promise: the document's text is a valid answer (`valid`),
//! so what it says is true by `claim_law`; the ledger is that of a whole compilation
//! (`compilation`, `solutions`); derivations add new clauses and delete only those (`fresh`,
//! `second`), within the budget (`within`), which is spent where the verdict is UNKNOWN (`spent`);
//! it is never UNKNOWN where the budget is as great as a stated number (`enough`), and what is given
//! with it is as good as the searches were many (`paid`). They fail exactly where the model is too
//! heavy, or memory is wanting (`light`, `heavy`).
//!
//! A round asks through a `Seeker`, whose incumbent is the value of the last solution that it found.
//! It asks for a better one alone, and whoever makes the rounds can't change it: so that the solution
//! that is kept has this value (`kept`) says that none that it found is better.
//!
//! Who watches (`SolutionWatcher`) is told each solution that a round found, and how many clauses were
//! learned. What may be told is a ghost member of the watcher, of which `answer_watched` asks only that
//! every solution of the model may: so nothing else is told. A watcher changes nothing that is answered.
//!
//! How a round searches is `learning_solver`'s; which bound it asks for is `ask_bound`, here, and which
//! values it decides first is `Targets`, and in the first round `wish`, of which nothing is promised.
//! Clauses, ledger and derivations go into the document as they are; nothing is made again for it.
#![tactic(auto)]

mod answering;
mod asking;
mod fixing;
mod improving;
mod objective;
mod rounds;
mod seeker;
mod solved;
mod solving;
mod targets;
mod telling;
mod watching;
mod wish;

pub use answering::{
    AnsweredModel, CnfSize, WishedModel, answer, answer_owned_watched, answer_watched,
    answer_wished,
};
pub use search_options::SearchOptions as Options;
pub use watching::SolutionWatcher;
