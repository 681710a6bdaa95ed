//! What stands against a line of a proof.

/// What stands against a line of a proof.
#[derive(Clone, Copy, PartialEq, Eq)]
pub enum RefusedProof {
    /// It is no clause over the variables of the CNF that unit propagation shows, and no deletion.
    Unshown,
    /// It isn't there: the proof ends before the empty clause is shown.
    Missing,
}

/// What stands against a line: it is missing where it is behind the last one, which needs no end.
pub(crate) fn fault_at(text: &[u8], line: u64) -> RefusedProof {
    let ended = text.iter().filter(|byte| **byte == b'\n').count() as u64;
    let open = !text.is_empty() && !text.ends_with(b"\n");
    if line > ended && line - ended > u64::from(open) {
        RefusedProof::Missing
    } else {
        RefusedProof::Unshown
    }
}
