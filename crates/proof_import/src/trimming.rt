//! The lines of a derivation that its last one needs.

use bee_list::Sequence;
use lrat_check::HintedLine;
use order_ints::Lit;
use proof_check::ProofLine;
use std::alloc::{AllocError, Global};

/// How clauses are numbered: so many are given, and then one for the assumed literal, if there is one.
#[derive(Clone, Copy)]
struct Numbers {
    given: u64,
    assumed: bool,
}

impl Numbers {
    /// Whether an id is that of the assumed literal.
    fn is_assumption(self, id: u64) -> bool {
        self.assumed && id == self.given.saturating_add(1)
    }

    /// The place among the lines of the clause of an id, none where it was given.
    fn place(self, id: u64) -> Option<usize> {
        let before = self.given.saturating_add(u64::from(self.assumed));
        if id <= before {
            return None;
        }
        usize::try_from(id - before - 1).ok()
    }
}

/// A place's mark, false where it is none.
fn is_set(marks: &[bool], place: usize) -> bool {
    place < marks.len() && marks[place]
}

/// Sets a place's mark.
fn set(marks: &mut [bool], place: usize) {
    if place < marks.len() {
        marks[place] = true;
    }
}

/// Marks the lines that a line's hints name.
fn need(numbers: Numbers, marks: &mut [bool], line: &HintedLine) {
    for hint in &line.hints {
        if let Some(place) = numbers.place(*hint) {
            set(marks, place);
        }
    }
}

/// Which lines the last one needs, itself included.
fn needed(alloc: Global, numbers: Numbers, found: &[HintedLine]) -> Result<Vec<bool>, AllocError> {
    let mut marks = vec![in alloc; false; found.len()]?;
    let mut last = true;
    for place in (0..found.len()).rev() {
        if last {
            set(&mut marks, place);
            last = false;
        }
        if is_set(&marks, place) {
            need(numbers, &mut marks, &found[place]);
        }
    }
    Ok(marks)
}

/// Whether a line was shown with the assumed literal, where those before it are marked.
fn relies(numbers: Numbers, marks: &[bool], line: &HintedLine) -> bool {
    for hint in &line.hints {
        if numbers.is_assumption(*hint) {
            return true;
        }
        if let Some(place) = numbers.place(*hint) {
            if is_set(marks, place) {
                return true;
            }
        }
    }
    false
}

/// Which lines were shown with the assumed literal.
fn relying(alloc: Global, numbers: Numbers, found: &[HintedLine]) -> Result<Vec<bool>, AllocError> {
    let mut marks = vec![in alloc; false; found.len()]?;
    for place in 0..found.len() {
        if relies(numbers, &marks, &found[place]) {
            set(&mut marks, place);
        }
    }
    Ok(marks)
}

/// The hints of a line by the new ids of those before it, without the assumed literal.
fn renumbered(
    alloc: Global,
    numbers: Numbers,
    ids: &[u64],
    hints: &[u64],
) -> Result<Sequence<i64>, AllocError> {
    let mut out = Vec::with_capacity(alloc, hints.len())?;
    for hint in hints {
        if numbers.is_assumption(*hint) {
            continue;
        }
        let id = match numbers.place(*hint) {
            Some(place) if place < ids.len() => ids[place],
            _ => *hint,
        };
        if let Ok(id) = i64::try_from(id) {
            out.push(id)?;
        }
    }
    Ok(Sequence::from_vec(out))
}

/// The lines that the last one needs, with ids behind those that are given. Where the assumed literal was used, its
/// negation joins the clause.
pub(crate) fn trimmed(
    alloc: Global,
    found: Vec<HintedLine>,
    given: u64,
    assumed: Option<Lit>,
) -> Result<Sequence<ProofLine>, AllocError> {
    let numbers = Numbers {
        given,
        assumed: assumed.is_some(),
    };
    let needed = needed(alloc, numbers, &found)?;
    let relying = relying(alloc, numbers, &found)?;
    let mut ids = Vec::with_capacity(alloc, found.len())?;
    let mut last = given;
    let mut lines = Vec::new(alloc);
    for line in found {
        let place = ids.len();
        if !is_set(&needed, place) {
            ids.push(0)?;
            continue;
        }
        last = last.saturating_add(1);
        let HintedLine { mut lits, hints } = line;
        if let Some(l) = assumed
            && is_set(&relying, place)
            && !lits.as_slice().contains(&l.negated())
        {
            lits.push(l.negated())?;
        }
        let hints = renumbered(alloc, numbers, &ids, &hints)?;
        ids.push(last)?;
        lines.push(ProofLine::Add {
            id: last,
            lits,
            hints,
        })?;
    }
    Ok(Sequence::from_vec(lines))
}
