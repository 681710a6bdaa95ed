//! Cores that come and go: a table worked out by hand, and refused memory.

ghost use Rattle.std.specs.Prelude.{◌≡◌, ◌≤◌, ℕ, [], IsTrue, Contains, length};
ghost use Rattle.std.specs.List.{All};
ghost use Rattle.std.specs.List.Sorted.{IsStrictlyIncreasing};
ghost use Rattle.core_occurrences.specs.Lists.{Occurs, cores_at};

use core_occurrences::Occurrences;
use std::alloc::{AllocError, Global};
use std::process::Abort;

/// What is done to occurrences.
#[derive(Clone, Copy)]
enum Move {
    /// Further variables, ids and nodes.
    Grow(u32, u32, u32),
    /// A core, and the digits of its variables.
    Add(u32, &'static str),
    /// Further variables of a core, which occur in none.
    Extend(u32, &'static str),
    /// A core goes.
    Remove(u32),
    /// Two cores exchange their occurrences.
    Exchange(u32, u32),
}

/// Whether each number is less than the next one.
fn are_increasing(vars: &[u32]) -> bool
    ensures { IsTrue result → IsStrictlyIncreasing vars.now }
{
    for k in 1..vars.len() {
        if vars[k - 1] >= vars[k] {
            return false;
        }
    }
    true
}

/// Whether all are numbers from 1 to a bound.
fn are_variables(vars: &[u32], count: u32) -> bool
    ensures { IsTrue result → All (λ v. (1 ≤ v) × (v ≤ count)) vars.now }
{
    vars.iter().all(|v| 1 <= *v && *v <= count)
}

/// Whether there is a place for a core, which has no occurrence.
fn is_new(occurrences: &Occurrences, id: u32) -> bool
    ensures id { IsTrue result → (1 ≤ id) × (id ≤ occurrences.now.ids) }
    ensures fresh { IsTrue result → (v : ℕ) → ¬ Occurs occurrences.now v id }
{
    if 1 <= id && id <= occurrences.ids() {
        occurrences.is_absent(id)
    } else {
        false
    }
}

/// Adds a core that may be added.
fn add(rt: &impl Abort, occurrences: &mut Occurrences, id: u32, vars: &[u32]) {
    assert!(rt; is_new(occurrences, id));
    assert!(rt; are_increasing(vars));
    assert!(rt; are_variables(vars, occurrences.vars()));
    assert!(rt; vars.len() <= occurrences.room() as usize);
    occurrences.add(id, vars);
}

/// Whether variables occur in no core.
fn are_bare(occurrences: &Occurrences, vars: &[u32]) -> bool
    requires { All (λ v. (1 ≤ v) × (v ≤ length occurrences.now.lists)) vars.now }
    ensures { IsTrue result → (v : ℕ) → Contains vars.now v → cores_at occurrences.now v ≡ [] }
{
    for var in vars {
        if !occurrences.is_bare(*var) {
            return false;
        }
    }
    true
}

/// Adds occurrences of bare variables in a core.
fn extend(rt: &impl Abort, occurrences: &mut Occurrences, id: u32, vars: &[u32]) {
    assert!(rt; 1 <= id && id <= occurrences.ids());
    assert!(rt; are_increasing(vars));
    assert!(rt; are_variables(vars, occurrences.vars()));
    assert!(rt; are_bare(occurrences, vars));
    assert!(rt; vars.len() <= occurrences.room() as usize);
    occurrences.add(id, vars);
}

/// Exchanges the occurrences of two ids.
fn exchange(rt: &impl Abort, occurrences: &mut Occurrences, first: u32, second: u32) {
    assert!(rt; 1 <= first && first <= occurrences.ids());
    assert!(rt; 1 <= second && second <= occurrences.ids());
    occurrences.exchange(first, second);
}

/// The numbers of digits.
fn digits(alloc: Global, text: &str) -> Result<Vec<u32>, AllocError> {
    let mut numbers = Vec::new(alloc);
    for digit in text.bytes() {
        numbers.push(u32::from(digit.saturating_sub(b'0')))?;
    }
    Ok(numbers)
}

/// Makes a move that may be made.
fn make(
    rt: &impl Abort,
    alloc: Global,
    occurrences: &mut Occurrences,
    step: Move,
) -> Result<(), AllocError> {
    match step {
        Move::Grow(vars, ids, nodes) => occurrences.grow(vars, ids, nodes),
        Move::Add(id, vars) => {
            let vars = digits(alloc, vars)?;
            add(rt, occurrences, id, vars.as_slice());
            Ok(())
        }
        Move::Extend(id, vars) => {
            let vars = digits(alloc, vars)?;
            extend(rt, occurrences, id, vars.as_slice());
            Ok(())
        }
        Move::Exchange(first, second) => {
            exchange(rt, occurrences, first, second);
            Ok(())
        }
        Move::Remove(id) => {
            assert!(rt; 1 <= id && id <= occurrences.ids());
            occurrences.remove(id);
            Ok(())
        }
    }
}

/// The ids at a variable.
fn ids_at(alloc: Global, occurrences: &Occurrences, var: u32) -> Result<Vec<u32>, AllocError>
    requires { (1 ≤ var) × (var ≤ length occurrences.now.lists) }
{
    let mut ids = Vec::with_capacity(alloc, occurrences.ids() as usize + 1)?;
    occurrences.ids_at(var, &mut ids);
    Ok(ids)
}

/// The digits of the ids at each variable, with a bar behind each variable.
fn show(rt: &impl Abort, alloc: Global, occurrences: &Occurrences) -> Result<Vec<u8>, AllocError> {
    let mut text = Vec::new(alloc);
    let count = occurrences.vars();
    for place in 0..count {
        let var = place + 1;
        assert!(rt; var <= occurrences.vars());
        for id in ids_at(alloc, occurrences, var)? {
            text.push(b'0' + u8::try_from(id).unwrap_or(0).min(9))?;
        }
        text.push(b'|')?;
    }
    Ok(text)
}

/// A move, the ids at each variable after it, and the room that there is then.
static MOVES: [(Move, &str, u32); 20] = [
    (Move::Grow(0, 4, 5), "|||", 5),
    (Move::Add(2, "13"), "2||2|", 3),
    // All nodes are in use; the first core of each list goes.
    (Move::Add(1, "123"), "12|1|12|", 0),
    (Move::Remove(2), "1|1|1|", 2),
    (Move::Add(4, "2"), "1|14|1|", 1),
    // A core that isn't there, and one that has no variable.
    (Move::Remove(3), "1|14|1|", 1),
    (Move::Add(2, ""), "1|14|1|", 1),
    (Move::Grow(2, 5, 3), "1|14|1|||", 4),
    (Move::Add(9, "1345"), "19|14|19|9|9|", 0),
    (Move::Remove(1), "9|4|9|9|9|", 3),
    // An id is used again, and its occurrences come last.
    (Move::Add(1, "15"), "19|4|9|9|19|", 1),
    (Move::Remove(9), "1|4|||1|", 5),
    // An id that had no occurrence has those of another one, and gets a further one.
    (Move::Exchange(1, 7), "7|4|||7|", 5),
    (Move::Extend(7, "3"), "7|4|7||7|", 4),
    (Move::Exchange(4, 7), "4|7|4||4|", 4),
    (Move::Exchange(4, 4), "4|7|4||4|", 4),
    (Move::Add(1, "12"), "14|17|4||4|", 2),
    (Move::Remove(4), "1|17||||", 5),
    (Move::Remove(7), "1|1||||", 6),
    (Move::Add(3, "345"), "1|1|3|3|3|", 3),
];

/// Makes moves, and asserts the ids and the room behind each.
fn make_all(
    rt: &impl Abort,
    alloc: Global,
    occurrences: &mut Occurrences,
    rows: &[(Move, &str, u32)],
) -> Result<(), AllocError> {
    for (step, lists, room) in rows {
        make(rt, alloc, occurrences, *step)?;
        let found = show(rt, alloc, occurrences)?;
        assert_eq!(rt; found.as_slice(), lists.as_bytes(), "{lists}");
        assert_eq!(rt; occurrences.room(), *room, "{lists}");
    }
    Ok(())
}

#[test]
fn moves_by_hand(rt: HostRuntime) -> Result<(), AllocError> {
    let mut occurrences = Occurrences::with(rt.alloc(), 3)?;
    make_all(&rt, rt.alloc(), &mut occurrences, &MOVES)?;
    assert_eq!(rt; (occurrences.vars(), occurrences.ids()), (5, 9));
    Ok(())
}

/// No core at two variables. Where memory is refused they are asked for again.
fn small(alloc: Global) -> Result<Occurrences, AllocError> {
    match Occurrences::with(alloc, 2) {
        Ok(occurrences) => Ok(occurrences),
        Err(_) => Occurrences::with(alloc, 2),
    }
}

/// How many variables and ids there are, and how many nodes are free.
fn sizes(occurrences: &Occurrences) -> (u32, u32, u32) {
    (occurrences.vars(), occurrences.ids(), occurrences.room())
}

/// Asserts that what passes the limits never succeeds.
fn meets_limits(rt: &impl Abort, occurrences: &mut Occurrences) {
    for (vars, ids, nodes) in [(u32::MAX, 0, 0), (0, u32::MAX, 0), (0, 0, u32::MAX)] {
        assert!(rt; occurrences.grow(vars, ids, nodes).is_err());
    }
}

/// Adds ids and nodes, a core, and many variables, ids and nodes, again where that is refused.
fn grow_twice(rt: &impl Abort, occurrences: &mut Occurrences) -> Result<(), AllocError> {
    if occurrences.grow(0, 3, 4).is_err() {
        occurrences.grow(0, 3, 4)?;
    }
    add(rt, occurrences, 3, [2].as_slice());
    meets_limits(rt, occurrences);
    if occurrences.grow(100, 200, 300).is_err() {
        assert_eq!(rt; sizes(occurrences), (2, 3, 3));
        occurrences.grow(100, 200, 300)?;
    }
    Ok(())
}

// `rt try --test --fail-alloc N` refuses the Nth allocation: one of those of `with` or of `grow`. What is refused is
// asked for again.
#[test]
fn growth_is_refused(rt: HostRuntime) -> Result<(), AllocError> {
    assert!(rt; Occurrences::with(rt.alloc(), 1 << 31).is_err());
    let mut occurrences = small(rt.alloc())?;
    grow_twice(&rt, &mut occurrences)?;
    assert_eq!(rt; sizes(&occurrences), (102, 203, 303));
    Ok(())
}
