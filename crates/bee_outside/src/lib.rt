//! The outside: where a program's bytes come from and go to. A `Shelf` gives bytes under names, a
//! `Sink` takes bytes, and each counts its faults.
//!
//! They are traits with ghost meanings: what is left under a name, what was taken, how often a call
//! failed. So a contract speaks of bytes, and the same proof serves files, streams and the fakes in
//! memory (`MemShelf`, `MemSink`), which meet the clauses exactly and fail where a test tells them
//! to. `HostShelf` and `HostSink` are the few trusted lines over real files and standard streams.
//! They tell no bytes, so what is promised of bytes says nothing of them; that they count each
//! fault is proved.
//!
//! What it promises: a call that fails raises its count by one, and no other call raises it
//! (`counts_faults`); an empty piece is written without one (`empty`). `read_all` and `write_all`
//! say what was read and written, also after a fault (`fault_took_front`), and that a fault ends
//! them.
//!
//! A count that rises by exactly one is more than most of `run` needs; it is what lets `run` say
//! that the call that failed was the last one. After a fault nothing is said of the reader's slice.
#![tactic(auto)]

mod failed;
mod host_shelf;
mod host_sink;
mod laws;
mod mem_shelf;
mod mem_sink;
mod names;
mod reading;
mod shelf;
mod sink;
mod writing;

pub use failed::Failed;
pub use host_shelf::HostShelf;
pub use host_sink::HostSink;
pub use laws::{end_law, pieces_law, rise_law};
pub use mem_shelf::MemShelf;
pub use mem_sink::MemSink;
pub use reading::{ReadText, ShelfFault, read_all};
pub use shelf::Shelf;
pub use sink::Sink;
pub use writing::write_all;
