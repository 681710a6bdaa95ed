//! A model and an assignment of it.

use crate::what::What;
use bee_list::Sequence;
use bumblebee_reader::Name;
use value_lists::Values;

/// A model: what it declares, what it states, and what it seeks. The items of its text are numbered
/// from 1, and each declaration and each statement has the number of its item.
#[derive(Debug, Drop)]
pub struct Model {
    /// The declared names, in the order of their declaration. A place is the place in this list,
    /// counted from 0.
    pub decls: Sequence<Decl>,
    /// The statements, in order.
    pub stmts: Sequence<Stmt>,
    /// What is sought.
    pub goal: Goal,
}

/// A declared name.
#[derive(Debug, Drop)]
pub struct Decl {
    /// The number of the item that declares it.
    pub number: u64,
    /// The name.
    pub name: Name,
    /// What it names, with its domain.
    pub kind: Kind,
}

/// What a name stands for.
#[derive(Debug, Drop)]
pub enum Kind {
    /// A Boolean.
    Bool,
    /// An integer with its declared domain, the whole numbers from `low` to `high`.
    Range {
        /// The least value.
        low: i64,
        /// The greatest value.
        high: i64,
    },
    /// An integer whose declared domain is listed.
    Listed {
        /// The values.
        values: Values,
    },
}

/// A statement with its number.
#[derive(Debug, Drop)]
pub struct Stmt {
    /// The number of its item.
    pub number: u64,
    /// What it states.
    pub what: What,
}

const _: () = prove!(size_of::<Stmt>() <= 136);

/// What a model seeks.
#[derive(Clone, Copy, Debug, PartialEq, Eq)]
pub enum Goal {
    /// Any solution.
    Satisfy,
    /// A solution with the least value of the integer at this place, and among these the least value of the one at the
    /// second place, where there is one.
    Minimize(usize, Option<usize>),
    /// A solution with the greatest value of the integer at this place, and among these the greatest value of the one
    /// at the second place, where there is one.
    Maximize(usize, Option<usize>),
}

/// A value for each declaration of a model, in their order.
#[derive(Drop)]
pub struct Assignment {
    /// The values; that of a Boolean is 0 or 1.
    pub values: Sequence<i64>,
}
