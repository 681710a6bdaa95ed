//! What a core costs, by numbers alone: the numbers of steps, spans and divisors of its integers,
//! and the lengths of its lists. A core that is never built can be costed, too.
//!
//! A cost counts fresh variables and literals of clauses, and bounds what the encoding of a core
//! makes. The weight of a model is made of it, so a model that is far too large is refused before
//! anything of it is built; and it decides between a table of all pairs of values and a merge
//! network for a sum, at equal cost the table. It is exact where it fits 128 bits, and 2^128 - 1
//! where it is greater, so every call is total.
//!
//! What it promises: each cost is exactly the function of shapes that `docs/CORES.md` states (the
//! one clause of each call); what numbers of steps and members below what fits in memory cost is
//! less than 2^128 (`fits_law`). Laws about lists, networks, sums and their parts (`members_law`,
//! `amo_law`, `steps_law`, `shapes_law`, `network_law`, `sum_bound_law`, `parts_law`, `fresh_law`)
//! are what shows that splitting never costs more than the whole.
//!
//! Whoever changes a cost changes which models are refused, which sums are split, and so the bytes
//! of ledgers and clauses; "Costs" and "Parts" of `docs/CORES.md` must say the same.
#![tactic(auto)]

mod arithmetic;
mod comparisons;
mod counts;
mod divisor;
mod laws;
mod list_forms;
mod network;
mod shape;
mod sums;

pub use arithmetic::{all_diff_cost, div_mod_cost, max_cost, prod_cost};
pub use comparisons::{eq_cost, ladder_cost, leq_cost, lex_cost};
pub use counts::count_cost;
pub use divisor::common_divisor;
pub use laws::{
    amo_law, fits_law, fresh_law, members_law, network_law, parts_law, shapes_law, steps_law,
    sum_bound_law,
};
pub use list_forms::{amo_cost, clause_cost, comp_cost, conj_cost, parity_cost};
pub use network::network_cost;
pub use shape::Shape;
pub use sums::{fresh_sum, is_network_cheaper, sum_cost, sum3_cost};
