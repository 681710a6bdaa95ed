//! Which cores wait to be asked, and at which variables the pending ones stand.

use crate::id_queue::IdQueue;
use crate::marks::Marks;
use core_occurrences::Occurrences;

/// The cores that wait to be asked. Beside them stands what tells which are to be asked again, and which are compound.
#[derive(Drop)]
pub struct Worklist {
    /// The pending cores at each variable.
    pub occurs: Occurrences,
    /// The cores that wait.
    pub queue: IdQueue,
    /// The cores that were compound when they were last asked.
    pub marks: Marks,
}
