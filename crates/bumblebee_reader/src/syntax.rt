//! What a text of the model language says, before any name is looked up.

use crate::name::Name;
use bee_list::Sequence;

/// A model text: its items, in order.
#[derive(Drop)]
pub struct Syntax {
    /// The items, which are numbered from 1.
    pub items: Sequence<Item>,
}

/// One item of a text.
#[derive(Drop)]
pub enum Item {
    /// A name other than `solve` and `then` with one or more arguments in parentheses: a declaration or a statement.
    Call {
        /// The name before the parentheses.
        name: Name,
        /// The arguments.
        args: Sequence<Arg>,
    },
    /// `solve` and what is sought.
    Goal {
        /// What is sought.
        kind: GoalKind,
        /// The name behind `minimize` or `maximize`; none behind `satisfy`.
        objective: Option<Name>,
        /// The name behind `then`, which decides among the best by the first; none where there is no `then`.
        second: Option<Name>,
    },
}

/// An argument of a call.
#[derive(Drop)]
pub enum Arg {
    /// A term.
    One(Term),
    /// A list of terms in brackets.
    Many(Sequence<Term>),
}

/// A term of a call.
#[derive(Drop)]
pub enum Term {
    /// A name.
    Plain(Name),
    /// A name behind `-`.
    Minus(Name),
    /// A numeral, with its sign.
    Number(i64),
}

/// What a model seeks.
#[derive(Clone, Copy, PartialEq, Eq)]
pub enum GoalKind {
    /// Any solution.
    Satisfy,
    /// A solution with the least values of the objectives.
    Minimize,
    /// A solution with the greatest values of the objectives.
    Maximize,
}
