//! The map of declared names: what each stands for, the number that it has under truth values, and
//! the line of a text that tells the number.
//!
//! A Boolean stands for an atom, an integer for an integer in the order encoding; whether that fits
//! the declaration is one definition over both kinds (`IsOfKind`), used for what the lowering makes
//! (`EntryFits`) and for what a store has made of it (`ValueFits`). Names have one room: the
//! lowering, the compiled text, decoding and the documents of answers stand on this one list, so a
//! line `NAME = VALUE` is written and read by one pair of functions everywhere.
//!
//! What it promises: `trim_map` gives exactly what each name stands for as a view has it;
//! `number_under` is exactly the number of a name under values; `is_boolean` and `is_boolean_kind`
//! tell its kind by what it stands for and by its declaration (one clause each). `push_value_line`
//! writes exactly the line, `read_value_line` reads exactly it: 0 or 1 of a Boolean as `false` or
//! `true`, and an integer within the caller's limit. `value_line_law`: a line tells one number.
//!
//! It stands above `model_meaning`, since of which kind a name is, is said by its declaration.
#![tactic(auto)]

mod entries;
mod laws;
mod trimming;
mod value_lines;
mod values;

pub use entries::{MapEntry, NameMap};
pub use laws::value_line_law;
pub use trimming::trim_map;
pub use value_lines::{push_value_line, read_value_line};
pub use values::{is_boolean, is_boolean_kind, number_under};
