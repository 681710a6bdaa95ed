//! Clauses by reference, their literals packed in one arena: the memory of a search.
//!
//! Four bytes a literal, one clause behind another; a table by reference says where a clause
//! begins, how long it is, and its id (sixteen bytes). So a reference stays when literals move, and
//! a deleted clause's reference and places are used again. The references stand in two rings, those
//! in use in the order of their literals and the others, so adding and deleting take constant time
//! beside the literals. When room is wanted and deleted clauses have a quarter of the arena, the
//! literals slide down in the order of the ring; otherwise the arena grows to twice its size. So a
//! slide is paid by what was deleted. A `Vec` for each clause would take more memory, and could not
//! be packed.
//!
//! What it promises: `add`, `delete` and `swap` leave exactly the stated clauses under every
//! reference, and the stated room (`clauses`), without memory; `add` answers a reference that no
//! clause has (`fresh`, `inside`). `reserve` makes room and leaves each clause where it is
//! (`wider`), or all as it was where it is refused (`err`). Look-ups tell exactly what a clause
//! has.
//!
//! When packing happens is no promise and may be tuned; that there is room is asked before, not met
//! by chance.
#![tactic(auto)]

mod arena;
mod codes;
mod literals;
mod references;
mod sliding;

pub use arena::ClauseArena;
pub use codes::{code_of, lit_of};
pub use literals::Literals;
