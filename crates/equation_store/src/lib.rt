//! Classes of variables that are known to be equal or opposite, under merging: what all equations
//! so far have made of the variables.
//!
//! Each variable has a label: a constant, or a literal of a variable that is its own label. A merge
//! gives the smaller class the other's label, so a label is one look, and no variable is relabelled
//! more often than the number of variables has binary digits, but for a last time by a constant;
//! that bounds the queries of a compilation. Trees with short ways (union-find) merge faster; but
//! a core must be woken at each member that gets a new label, so the members are walked in any
//! case. The members of a class are a ring of single links, which two classes join by one exchange.
//! Label, link and size take 20 bytes a variable.
//!
//! What it promises: `merge` answers by the resolved atoms (`already`, `clash`), and gives exactly
//! the new view (`view`, `relabels`), which is met by exactly the valuations that meet the old one
//! and make the two atoms equally true (`equation`). Two atoms resolve to one exactly where every
//! valuation that meets the store makes them equal (`exact`). `first` and `after` walk each member
//! once. Laws: `resolve_law`, `merge_laws`, `change_laws`, `own_laws`.
//!
//! The order of a walk is open. The ring of a class that became constant is left as it is, and
//! nobody walks it.
#![tactic(auto)]

mod classes;
mod labels;
mod laws;
mod relabel;
mod store;

pub use laws::{change_laws, merge_laws, own_laws, resolve_law};
pub use relabel::Merged;
pub use store::EqStore;
