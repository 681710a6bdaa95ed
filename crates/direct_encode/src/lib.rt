//! The clauses of a core in a basic form: where the compiler's constraints end and clauses begin.
//!
//! Comparisons and greatest members come from walks along integers side by side, in time linear in
//! their literals; sums, products and divisions from all pairs of values, whose levels are added up
//! once, and each atom of the result is found by halving. Of a sum a clause is left out where a
//! neighbour's says more. A core is trimmed before, so equal atoms and constants are gone.
//!
//! What it promises of `clauses`: it gives exactly the clauses that "Clauses" of `docs/CORES.md`
//! states (`shape`); a valuation satisfies them exactly where it meets the core (`meaning`); they
//! are over the core's variables (`below`), with at most as many literals as the core costs
//! (`size`). Laws: `meaning_law`, `below_law`, `size_law`.
//!
//! Each clause is a list with memory of its own and room for exactly its atoms: the caller puts
//! each in order as it comes and lets the whole go. A further kind of clauses is a list in
//! `specs/Clauses.antt`, the loop that writes it, and a lemma in `proofs/Truths.antt`.
#![tactic(auto)]

mod atom_lists;
mod clause;
mod comparison;
mod divisions;
mod forms;
pub mod laws;
mod maxima;
mod order;
mod products;
mod sums;
mod table;

pub use forms::clauses;
