//! What the arguments of a declaration or statement are to be.

/// What an argument is to be.
#[derive(Clone, Copy)]
pub enum Wanted {
    /// A Boolean term.
    Truth,
    /// An integer term.
    Number,
    /// A numeral.
    Numeral,
    /// A list of Boolean terms.
    Truths,
    /// A list of integer terms.
    Numbers,
    /// A list of numerals.
    Numerals,
    /// A name that is declared here.
    NewName,
    /// An integer that is declared, or else is declared here.
    NewInteger,
}
