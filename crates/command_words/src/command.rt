//! What the words ask for.

use search_options::SearchOptions;

/// How a model is solved.
#[derive(Clone, Copy, PartialEq, Eq)]
pub struct Options {
    /// How its search is made.
    pub search: SearchOptions,
    /// Whether what the search finds is told while it goes on.
    pub progress: bool,
}

/// A command of the program. How a search is made may stand with each mode; a mode that doesn't search has no use for
/// it. That its progress is told stands with a mode that searches.
#[derive(Clone, Copy, PartialEq, Eq)]
pub enum Command<'a> {
    /// The model is compiled to clauses.
    Compile {
        /// The name of the model's text.
        input: &'a str,
    },
    /// The model is weighed.
    Weigh {
        /// The name of the model's text.
        input: &'a str,
    },
    /// The model is solved.
    Solve {
        /// The name of the model's text.
        input: &'a str,
        /// How.
        options: Options,
    },
    /// An answer to the model is checked.
    Check {
        /// The name of the model's text.
        input: &'a str,
        /// The name of the answer's text.
        second: &'a str,
    },
    /// The values of a SAT solver are told in the names of a compiled text.
    Decode {
        /// The name of the compiled text.
        input: &'a str,
        /// The name of the values' text.
        second: &'a str,
    },
    /// The queens of a board are placed.
    Queens {
        /// How many rows and columns the board has; from 4 to 24.
        size: u64,
        /// How.
        options: Options,
    },
    /// Values are sought that satisfy a CNF.
    Sat {
        /// The name of the CNF's text.
        input: &'a str,
        /// How.
        options: Options,
    },
    /// A proof that no values satisfy a CNF is checked.
    Drup {
        /// The name of the CNF's text.
        input: &'a str,
        /// The name of the proof's text.
        second: &'a str,
    },
    /// The model of a pseudo-Boolean file is written.
    OpbModel {
        /// The name of the file's text.
        input: &'a str,
    },
    /// The model of a pseudo-Boolean file is solved.
    Opb {
        /// The name of the file's text.
        input: &'a str,
        /// How.
        options: Options,
    },
    /// All solutions of the model are listed.
    All {
        /// The name of the model's text.
        input: &'a str,
        /// How.
        options: Options,
    },
    /// A list of the model's solutions is checked.
    CheckAll {
        /// The name of the model's text.
        input: &'a str,
        /// The name of the list's text.
        second: &'a str,
    },
    /// A part of the model's statements is sought that has no solution.
    Core {
        /// The name of the model's text.
        input: &'a str,
        /// How.
        options: Options,
    },
    /// The text of such a part is checked.
    CheckCore {
        /// The name of the model's text.
        input: &'a str,
        /// The name of the part's text.
        second: &'a str,
    },
    /// The model is compiled, with the clause that its objective is better than a number.
    Bound {
        /// The name of the model's text.
        input: &'a str,
        /// The number.
        number: i64,
    },
    /// What another solver found about the model's clauses becomes an answer.
    Certify {
        /// The name of the model's text.
        input: &'a str,
        /// The name of the text of what was found.
        second: &'a str,
    },
    /// The model is solved, begun from values that are known.
    Resume {
        /// The name of the model's text.
        input: &'a str,
        /// The name of the values' text.
        second: &'a str,
        /// How.
        options: Options,
    },
}
