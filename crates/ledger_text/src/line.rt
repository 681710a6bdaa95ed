//! A line of a ledger.

use core_forms::Equation;

/// One step of a compilation. Cores have ids from 1, in the order in which they are made.
#[derive(Clone, Copy, Debug, PartialEq, Eq)]
pub enum Line {
    /// Two atoms become one, since a rule finds them equally true at a pending core.
    Equate {
        /// The core's id.
        id: u64,
        /// The two atoms, and the rule.
        e: Equation,
    },
    /// A compound core is split into parts.
    Split {
        /// The core's id.
        id: u64,
    },
    /// A basic core gives its clauses.
    Encode {
        /// The core's id.
        id: u64,
    },
}
