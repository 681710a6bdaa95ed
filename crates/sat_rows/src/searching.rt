//! Texts of plain CNFs that are searched: the clauses that are learned, with their hints in order, worked out by hand,
//! and what comes of searches. At first the variables are decided false, the last one first.

use bee_outside::{MemShelf, MemSink};
use sat_mode::sat;
use search_options::SearchOptions;
use search_watcher::Silent;
use std::alloc::{AllocError, Global};
use std::cell::RefCell;
use std::process::Abort;
use std::test::Fail;

/// The text of a CNF, how many clauses may be learned, and what is written.
type Row = (&'static str, u64, &'static str);

/// What a search writes.
fn searched(alloc: Global, text: &str, budget: u64, restart: bool) -> Result<MemSink, AllocError> {
    let file = (
        String::from_str(alloc, "m.cnf")?,
        Vec::from_slice(alloc, text.as_bytes())?,
    );
    let mut shelf = MemShelf::with(vec![in alloc; file]?, 65_536, Vec::new(alloc));
    let mut out = MemSink::with(alloc, 1_048_576, 65_536, Vec::new(alloc))?;
    let options = SearchOptions { budget, restart };
    let watcher = RefCell::new(Silent);
    let _end = sat(alloc, "m.cnf", options, &mut shelf, &mut out, &watcher);
    Ok(out)
}

/// Searches with and without restarts, and compares what is written.
fn search_row<R: Abort>(rt: &R, alloc: Global, row: Row) -> Result<(), Fail> {
    let (text, budget, want) = row;
    for restart in [true, false] {
        let out = searched(alloc, text, budget, restart)?;
        assert_eq!(rt; out.taken(), want.as_bytes(), "{text}");
    }
    Ok(())
}

/// A clause is learned at the first conflict, and nothing fails any more but at the last two variables, so that the
/// budget of one clause is spent, and that clause is shown. Its hints are the clauses by their numbers.
static LEARNED: [Row; 12] = [
    (
        "p cnf 4 6\n3 4 0 -3 4 0\n1 2 0 -1 2 0 1 -2 0 -1 -2 0\n",
        1,
        "s UNKNOWN\n7 4 0 1 2 0\n",
    ),
    // The first literal of the level by which all others follow is kept, not the decision.
    (
        "p cnf 5 7\n4 5 0 3 -4 0 -3 -4 0\n1 2 0 -1 2 0 1 -2 0 -1 -2 0\n",
        1,
        "s UNKNOWN\n8 -4 0 2 3 0\n",
    ),
    (
        "p cnf 7 8\n5 6 0 4 -5 0 3 -5 0 -3 -4 7 0\n1 2 0 -1 2 0 1 -2 0 -1 -2 0\n",
        1,
        "s UNKNOWN\n9 -5 7 0 2 3 4 0\n",
    ),
    // Three levels, the greatest other one second.
    (
        "p cnf 6 6\n3 4 6 0 -3 4 5 0\n1 2 0 -1 2 0 1 -2 0 -1 -2 0\n",
        1,
        "s UNKNOWN\n7 4 5 6 0 1 2 0\n",
    ),
    (
        "p cnf 6 6\n3 4 5 0 -3 4 6 0\n1 2 0 -1 2 0 1 -2 0 -1 -2 0\n",
        1,
        "s UNKNOWN\n7 4 5 6 0 1 2 0\n",
    ),
    // A literal goes that another one implies, in one step and in several.
    (
        "p cnf 7 8\n5 7 0 4 6 7 0 3 6 0 -3 -4 -5 0\n1 2 0 -1 2 0 1 -2 0 -1 -2 0\n",
        1,
        "s UNKNOWN\n9 6 7 0 1 2 3 4 0\n",
    ),
    (
        "p cnf 9 10\n7 9 0 6 -7 0 5 -6 0 4 8 9 0 3 8 0 -3 -4 -5 0\n1 2 0 -1 2 0 1 -2 0 -1 -2 0\n",
        1,
        "s UNKNOWN\n11 8 9 0 1 2 3 4 5 6 0\n",
    ),
    // It stays where a reason has a literal outside, or a decision is behind it.
    (
        "p cnf 8 8\n5 7 8 0 4 6 8 0 3 6 0 -3 -4 -5 0\n1 2 0 -1 2 0 1 -2 0 -1 -2 0\n",
        1,
        "s UNKNOWN\n9 6 -5 8 0 2 3 4 0\n",
    ),
    (
        "p cnf 7 8\n5 7 0 4 6 0 3 6 0 -3 -4 -5 0\n1 2 0 -1 2 0 1 -2 0 -1 -2 0\n",
        1,
        "s UNKNOWN\n9 6 -5 0 2 3 4 0\n",
    ),
    (
        "p cnf 9 10\n7 9 0 6 -7 0 5 -6 0 4 8 0 3 8 0 -3 -4 -5 0\n1 2 0 -1 2 0 1 -2 0 -1 -2 0\n",
        1,
        "s UNKNOWN\n11 8 -5 0 4 5 6 0\n",
    ),
    // Level 0 stands in the hints, and not in the clause.
    (
        "p cnf 7 9\n5 0 -5 6 0 4 7 0 3 7 0 -3 -4 -6 0\n1 2 0 -1 2 0 1 -2 0 -1 -2 0\n",
        1,
        "s UNKNOWN\n10 7 0 1 2 3 4 5 0\n",
    ),
    // What was implied once is not sought again.
    (
        "p cnf 9 10\n7 9 0 6 -7 0 5 -6 -7 0 4 8 9 0 3 8 0 -3 -4 -5 -6 0\n1 2 0 -1 2 0 1 -2 0 -1 -2 0\n",
        1,
        "s UNKNOWN\n11 8 9 0 1 2 3 4 5 6 0\n",
    ),
];

/// What comes of searches to their end, and of budgets that are met by the last clause and by the one before it.
static SEARCHES: [Row; 11] = [
    ("p cnf 0 0\n", 0, "s SATISFIABLE\nv 0\n"),
    ("p cnf 1 1\n0\n", 0, "s UNSATISFIABLE\n"),
    ("p cnf 2 2\n1 0 -2 0\n", 0, "s SATISFIABLE\nv 1 -2 0\n"),
    ("p cnf 1 2\n1 0 -1 0\n", 0, "s UNKNOWN\n"),
    ("p cnf 1 2\n1 0 -1 0\n", 1, "s UNSATISFIABLE\n3 0 1 2 0\n"),
    (
        "p cnf 3 4\n1 2 0 -2 3 0 -2 -3 0 -1 0\n",
        1,
        "s UNSATISFIABLE\n5 0 4 1 2 3 0\n",
    ),
    (
        "p cnf 3 5\n1 2 0 1 2 0 1 2 3 0 -1 3 0 -3 0\n",
        0,
        "s SATISFIABLE\nv -1 2 -3 0\n",
    ),
    ("p cnf 2 4\n1 2 0 1 -2 0 -1 2 0 -1 -2 0\n", 0, "s UNKNOWN\n"),
    (
        "p cnf 2 4\n1 2 0 1 -2 0 -1 2 0 -1 -2 0\n",
        1,
        "s UNKNOWN\n5 2 0 1 3 0\n",
    ),
    (
        "p cnf 2 4\n1 2 0 1 -2 0 -1 2 0 -1 -2 0\n",
        2,
        "s UNSATISFIABLE\n5 2 0 1 3 0\n6 0 5 2 4 0\n",
    ),
    (
        "p cnf 2 4\n1 2 0 1 -2 0 -1 2 0 -1 -2 0\n",
        9_223_372_036_854_775_807,
        "s UNSATISFIABLE\n5 2 0 1 3 0\n6 0 5 2 4 0\n",
    ),
];

#[test]
fn clauses_are_learned(rt: HostRuntime) -> Result<(), Fail> {
    for row in LEARNED.iter().chain(SEARCHES.iter()) {
        search_row(&rt, rt.alloc(), *row)?;
    }
    Ok(())
}

/// The CNF of so many pigeons in one hole fewer, each in one and no two in one.
fn pigeons(alloc: Global, count: u32) -> Result<String, AllocError> {
    let holes = count.saturating_sub(1);
    let mut text = format!(in alloc; "p cnf {} 0\n", count.saturating_mul(holes))?;
    for pigeon in 0..count {
        let first = pigeon.saturating_mul(holes).saturating_add(1);
        for hole in 0..holes {
            let seat = format!(in alloc; "{} ", first.saturating_add(hole))?;
            text.push_str(seat.as_str())?;
        }
        text.push_str("0\n")?;
    }
    for place in 0..holes.saturating_mul(count) {
        push_rivals(alloc, &mut text, place, holes, count)?;
    }
    Ok(text)
}

/// No pigeon behind one sits in its hole; the place is the pigeon's number times that of the holes, and the hole.
fn push_rivals(
    alloc: Global,
    text: &mut String,
    place: u32,
    holes: u32,
    count: u32,
) -> Result<(), AllocError> {
    let mut rival = place.saturating_add(holes);
    for _ in 0..count {
        if rival < holes.saturating_mul(count) {
            let pair = format!(in alloc;
                "-{} -{} 0\n",
                place.saturating_add(1),
                rival.saturating_add(1)
            )?;
            text.push_str(pair.as_str())?;
        }
        rival = rival.saturating_add(holes);
    }
    Ok(())
}

/// Whether a proof has a line that deletes clauses.
fn deletes(proof: &[u8]) -> bool {
    proof.split(|byte| *byte == b'\n').any(|line| line
        .split(|byte| *byte == b' ')
        .any(|word| word == b"d".as_slice()))
}

/// A long search deletes clauses that it learned, where it begins again, and else none.
#[test]
fn long_searches_delete(rt: HostRuntime) -> Result<(), Fail> {
    let text = pigeons(rt.alloc(), 7)?;
    for restart in [true, false] {
        let out = searched(rt.alloc(), text.as_str(), 1_000_000, restart)?;
        assert!(rt; out.taken().starts_with(b"s UNSATISFIABLE\n"));
        assert_eq!(rt; deletes(out.taken()), restart);
    }
    Ok(())
}
