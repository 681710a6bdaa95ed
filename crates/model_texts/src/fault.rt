//! Why a text is no model that is compiled.

use thiserror::Error;
use typed_model::TypeFault;

/// Why an input is no model that is compiled, no compiled text, or no plain CNF. The first of these that it has, in
/// this order, is its fault; of `Syntax` and `Number` the one that stands first in the text. `Cnf` is that of a
/// compiled text and of a plain CNF.
#[derive(Debug, Drop, Error)]
pub enum ModelFault {
    /// Its text has more than 16,777,216 bytes.
    #[error("model: too long")]
    TooLong,
    /// It is no text of the language; the line of the first token that fits nowhere, or of its end.
    #[error("model: line {0}: syntax")]
    Syntax(u64),
    /// A numeral is too great; its line.
    #[error("model: line {0}: number")]
    Number(u64),
    /// An item has a fault of names, kinds or domains; never `Memory`.
    #[error("model: {0}")]
    Typed(TypeFault),
    /// The model's weight is this, and above 67,108,864.
    #[error("model: weight {0}")]
    TooHeavy(u128),
    /// It is no compiled text, or no plain CNF; the first line that fails, counted from 1.
    #[error("cnf: line {0}")]
    Cnf(u64),
}
