//! What a model means, whatever text says it: declarations, statements, which assignments are
//! solutions, and which is best. This is the crate to read first, and the one to believe: every
//! verdict of the program is true of these definitions.
//!
//! A model is a list of declarations, a list of statements, and a goal. A statement keeps what its
//! name says (operator, relation, kind or order) beside its arguments, so no later pass reads a
//! name again. Its meaning is a test into truth values, written once for each line of the table
//! (`specs/Holds.antt`) and in no words of the compiler: no core, literal or clause occurs in it.
//! The value of what is sought is a list of one number or two, and better means less, or greater,
//! at the first place where two lists differ (`specs/Solutions.antt`).
//!
//! What it promises: `in_domains`, `holds` and `first_broken` are the definitions, without memory
//! (`meaning`, `first`, `none`); `in_limits` is exactly that numbers, domains and lists are in
//! their limits. `specs/WellTyped.antt` says which model has no fault. Laws: `holds_law` (the test
//! of a statement is what it means), `behind_law` (a statement means the same when declarations and
//! values are added behind).
//!
//! A place past the values counts as 0, so `holds` asks no typing; lowering and checking lean on
//! it. A further statement begins here, in six files (`docs/ARCHITECTURE.md`, "How one adds").
#![tactic(auto)]

mod arguments;
mod booleans;
mod integers;
mod laws;
mod limits;
mod lists;
mod model;
mod parts;
mod solutions;
mod statement;
mod table;
mod terms;
mod wanted;
mod what;

pub use laws::{behind_law, holds_law};
pub use limits::in_limits;
pub use model::{Assignment, Decl, Goal, Kind, Model, Stmt};
pub use parts::{OrderLists, terms_or_none};
pub use solutions::{first_broken, holds, in_domains};
pub use statement::{Aggregate, AllDifferent, Arithmetic, Operator, Order, Relation, Statement};
pub use value_lists::Values;
pub use wanted::Wanted;
pub use what::{BoolTerm, IntTerm, What};
