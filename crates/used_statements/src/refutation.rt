//! Which clauses a derivation of the empty clause uses.

use proof_check::ProofLine;
use std::alloc::{AllocError, Global};

/// The ids of the clauses that are added, in order.
fn added_ids(alloc: Global, proof: &[ProofLine]) -> Result<Vec<u64>, AllocError> {
    let mut ids = Vec::new(alloc);
    for line in proof {
        if let ProofLine::Add { id, .. } = line {
            ids.push(*id)?;
        }
    }
    Ok(ids)
}

/// Marks the clause of an id, which was added or else is one of the CNF.
fn mark(added: &[u64], used: &mut [bool], clauses: &mut [bool], id: u64) {
    match added.binary_search(&id) {
        Ok(place) => {
            if place < used.len() {
                used[place] = true;
            }
        }
        Err(_) => {
            let place = id.saturating_sub(1) as usize;
            if place < clauses.len() {
                clauses[place] = true;
            }
        }
    }
}

/// Marks the clauses by which a clause was derived.
fn mark_hints(added: &[u64], used: &mut [bool], clauses: &mut [bool], hints: &[i64]) {
    for hint in hints {
        mark(added, used, clauses, hint.unsigned_abs());
    }
}

/// Which of so many clauses of a CNF the last clause uses that a derivation adds.
pub(crate) fn used_clauses(
    alloc: Global,
    proof: &[ProofLine],
    count: usize,
) -> Result<Vec<bool>, AllocError> {
    let added = added_ids(alloc, proof)?;
    let mut used = vec![in alloc; false; added.len()]?;
    let mut clauses = vec![in alloc; false; count]?;
    let mut place = added.len();
    let mut last = true;
    for at in (0..proof.len()).rev() {
        if let ProofLine::Add { hints, .. } = &proof[at] {
            place = place.saturating_sub(1);
            if last || (place < used.len() && used[place]) {
                mark_hints(
                    added.as_slice(),
                    used.as_mut_slice(),
                    clauses.as_mut_slice(),
                    hints.as_slice(),
                );
            }
            last = false;
        }
    }
    Ok(clauses)
}
