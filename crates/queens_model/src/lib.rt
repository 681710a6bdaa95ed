//! The model of the queens of a board, as a value: for each row the column of its queen, and the
//! sums and differences of both, all different.
//!
//! It is there for `bee queens`, a problem that needs no text, and as the example of a model that a
//! program makes itself: what it means is proved once for each size, not read from a text. The
//! diagonals are integers of their own, by a sum with a constant each; `examples/eight_queens.bee`
//! is the same model as a text.
//!
//! What it promises: `queens` gives the model of so many queens, from 4 to 24 (`model`), which is
//! well typed, in the limits and light (`typed`, `limits`, `light`). `placement_law`: each solution
//! is a placement of queens of which no two attack each other; the definition of that speaks of
//! rows and columns alone (`specs/Placements.antt`). That each placement comes of a solution is not
//! proved.
//!
//! That all 21 sizes are typed, in the limits and light is computed, by one lemma over a test.
#![tactic(auto)]

mod integers;
mod laws;
mod made;
mod statements;

pub use laws::placement_law;
pub use made::queens;
