//! Lists of values, ascending, each once: the domains of integers that are declared by a list.
//!
//! A domain by a list is for values with gaps. Kept sorted, a look-up halves, least and greatest
//! are the ends, and the shape of an integer with these values (its steps, span and common divisor)
//! is at hand, since the common divisor of their gaps is kept beside them.
//!
//! What it promises: `from_vec` gives exactly the values of a list, in whatever order and however
//! often it has them (its one clause); `contains` is exactly whether a value is listed; `least` and
//! `greatest` are the first and the last; `shape` is exactly the shape of such an integer
//! (`shape`).
//!
//! The fields are closed, so that nobody makes a list that is out of order. A set by hashing would
//! be of no use: the values are walked upwards wherever they are used.
#![tactic(auto)]

mod values;

pub use values::Values;
