//! Reads compiled texts, and the values that a SAT solver answers for their clauses, line by line.
//!
//! Neither is believed. A compiled text is taken as it stands, whoever made it, and its first line
//! that does not fit is named; a solver's values are taken only where each variable has one and
//! every clause is true under them. Which line may stand next is a relation
//! (`specs/TextSteps.antt`, `specs/Values.antt`) over `line_texts`; the function that takes a line
//! is proved against it.
//!
//! What it promises: `read_values` is `Ok` exactly where the bytes are values in form that satisfy
//! every clause, and then gives them (`read`, `complete`); else it names the first line that fails,
//! and whether it is missing (`fault`, `exact`), or memory is wanting. `read_compiled` is the same of compiled texts.
//! `read_laws`: what `write_compiled` gives is read as what was written, and values that are read
//! give an assignment that the text stands for. `answer_law`: each text is in form or has a first
//! line that fails.
//!
//! That each text has an answer is decided by trying each number below a bound, a search that no
//! program runs (`AnswerLaws`). `cadical`, `picosat` and `cryptominisat5` write the values as they
//! are read; `docs/SOLVERS.md` tells what makes the others so.
#![tactic(auto)]

mod above;
mod answer_laws;
mod compiled;
mod draft;
mod entry;
mod fault;
mod known;
mod laws;
mod lines;
mod literal;
mod name;
mod steps;
mod values;

pub use answer_laws::answer_law;
pub use compiled::read_compiled;
pub use fault::{CompiledTextFault, ValuesTextFault};
pub use laws::read_laws;
pub use values::read_values;
