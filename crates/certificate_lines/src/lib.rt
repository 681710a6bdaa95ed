//! The lines that certificates are made of, for every text that has some: the values of names, the
//! steps of a ledger, and the lines of a derivation.
//!
//! A list of solutions and a core stand each in a text of its own, and both end as an answer does:
//! by a ledger, whose lines are steps from the lowered model, and by a derivation in the form of
//! LRAT over clauses. What such a line says does not depend on the text around it. So it is said
//! here once, as a relation between what stands before the line and what stands behind it
//! (`specs/CertificateLines.antt`), for texts that are read by `line_texts`.
//!
//! What it promises: `read_value` gives the value of a name exactly where the line tells one of its
//! domain, and `push_value` puts that of the next name behind the others. `read_count` and
//! `read_spent` give the number that a word of a verdict spells. `take_step` and
//! `take_derived` take a line exactly where it is the next one (`taken`), and say so; a line that is
//! not is never made, and nothing of it is believed. `one_line_law`: a line leads to one state, one
//! derivation, and tells one value. `word_law`: the words that begin the derivation and end the text
//! are no lines of these. `certificate_law`: such lines, one behind the other, are a ledger from the
//! state at the start and a derivation from the CNF.
//!
//! Causes are not told, only whether a line is the next one; `ledger_check` tells causes and reads
//! its lines itself, but for whether a number is in a domain (`is_value`). A text adds what begins a
//! part and what ends it.
#![tactic(auto)]

mod counts;
mod derivation;
mod laws;
mod next_value;
mod steps;
mod values;

pub use counts::{is_count, read_count, read_spent};
pub use derivation::{checker_of, take_derived};
pub use laws::{certificate_law, one_line_law, word_law};
pub use next_value::push_value;
pub use steps::take_step;
pub use values::{is_value, read_value};
