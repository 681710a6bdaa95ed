//! How many queries a compilation may make: laws of ledgers, without code that runs.
//!
//! A core is asked when it is made, and once for each new label of one of its variables. The class
//! that loses a merge is the smaller one, so a variable's class at least doubles with each new
//! label that is no constant, and a constant is its last. With V variables at the end no variable
//! so gets more new labels than V has binary digits.
//!
//! What it promises (`new_label_laws`): no variable gets more new labels than that (`labels`), and
//! the pairs of a pending core and one of its variables that gets a new label are, over a whole
//! ledger, no more than that for each pair that was made (`pairs`). So a compilation of C cores
//! with O different variables together makes at most C + O * d queries, d being the digits of V,
//! and counts at most three steps for each.
//!
//! It stands apart from `fixpoint_queue` because it speaks of any ledger, whoever made it, and from
//! `state_compile` because that proves the bound of one loop. It hangs on the store's rule that the
//! smaller class loses (`merge_laws` of `equation_store`); with another rule the bound falls.
#![tactic(auto)]

mod laws;

pub use laws::new_label_laws;
