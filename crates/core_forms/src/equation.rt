//! Equations between atoms, which rules find.

use order_ints::Atom;

/// What finds an equation: the order of an integer, the form of a core, or the table of a core with
/// few variables.
#[derive(Clone, Copy, Debug, PartialEq, Eq)]
pub enum Rule {
    /// The order of an integer's steps.
    Order,
    /// The rules of a form.
    Form,
    /// All valuations of a core's variables.
    Table,
}

/// Two atoms that are equally true wherever a core is met, and what found them.
#[derive(Clone, Copy, Debug, PartialEq, Eq)]
pub struct Equation {
    /// What found it.
    pub rule: Rule,
    /// An atom.
    pub a: Atom,
    /// The atom that is as true.
    pub b: Atom,
}
