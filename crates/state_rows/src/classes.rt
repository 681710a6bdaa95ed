//! Merges of classes: a table worked out by hand, a walk, random merges compared with a plain program, and refused
//! memory.

ghost use Rattle.std.specs.Prelude.{◌↔◌, ◌+◌, ◌<◌, IsTrue};
ghost use Rattle.order_ints.specs.Place.{AtomBelow};
ghost use Rattle.equation_store.specs.Laws.{IsConstant};

use crate::numbers::Numbers;
use core_words::{atom, word};
use equation_store::{EqStore, Merged};
use order_ints::{Atom, Lit};
use std::alloc::{AllocError, Global};
use std::process::Abort;
use std::test::Fail;

fn is_atom_of(vars: usize, atom: Atom) -> bool
    ensures { IsTrue result ↔ AtomBelow (vars + 1) atom }
{
    match atom {
        Atom::True => true,
        Atom::False => true,
        Atom::Of(literal) => 1 <= literal.var && literal.var as usize <= vars,
    }
}

/// What a merge would relabel, and what it answers.
fn merge(rt: &impl Abort, store: &mut EqStore, a: Atom, b: Atom) -> (Option<u32>, Merged) {
    let vars = store.view().len();
    assert!(rt; is_atom_of(vars, a));
    assert!(rt; is_atom_of(vars, b));
    let loser = store.loser(a, b);
    (loser, store.merge(a, b))
}

/// Two atoms, the variable whose class loses in their merge, its answer, and the labels after it.
static MERGES: [(&str, &str, Option<u32>, Merged, &str); 12] = [
    // Of classes of one size that of the greater variable loses.
    ("6", "7", Some(7), Merged::Changed, "1 2 3 4 5 6 6"),
    // The smaller class loses, though its variable is the smaller one; its label has the other sign.
    ("-5", "7", Some(5), Merged::Changed, "1 2 3 4 -6 6 6"),
    ("1", "2", Some(2), Merged::Changed, "1 1 3 4 -6 6 6"),
    ("-3", "4", Some(4), Merged::Changed, "1 1 3 -3 -6 6 6"),
    // The signs cross: variable 4 is the negation of 3, and 3 becomes 1.
    ("2", "-4", Some(3), Merged::Changed, "1 1 1 -1 -6 6 6"),
    ("3", "1", None, Merged::Already, "1 1 1 -1 -6 6 6"),
    ("4", "2", None, Merged::Clash, "1 1 1 -1 -6 6 6"),
    ("5", "-5", None, Merged::Clash, "1 1 1 -1 -6 6 6"),
    // A class becomes constant.
    ("5", "T", Some(6), Merged::Changed, "1 1 1 -1 T F F"),
    ("F", "7", None, Merged::Already, "1 1 1 -1 T F F"),
    ("T", "F", None, Merged::Clash, "1 1 1 -1 T F F"),
    ("F", "4", Some(1), Merged::Changed, "T T T F T F F"),
];

/// Asserts that the labels of a store are those of some words.
fn has_labels(rt: &impl Abort, store: &EqStore, labels: &str) -> Result<(), Fail> {
    assert_eq!(rt; store.view().len(), 7);
    for (place, label) in store.view().iter().enumerate() {
        let wanted = atom(word(labels, place))?;
        assert_eq!(rt; *label, wanted, "{labels}");
    }
    Ok(())
}

/// Merges the atoms of rows, and asserts what each merge answers, and the labels after it.
fn merge_all(rt: &impl Abort, store: &mut EqStore) -> Result<(), Fail> {
    for (a, b, loser, answer, labels) in &MERGES {
        let merged = merge(rt, store, atom(a)?, atom(b)?);
        assert_eq!(rt; merged, (*loser, *answer), "at {a} and {b}");
        has_labels(rt, store, labels)?;
    }
    Ok(())
}

#[test]
fn merges(rt: HostRuntime) -> Result<(), Fail> {
    let mut store = EqStore::with(rt.alloc(), 7)?;
    merge_all(&rt, &mut store)
}

/// What an atom resolves to.
fn resolve(rt: &impl Abort, store: &EqStore, a: Atom) -> Atom {
    assert!(rt; is_atom_of(store.view().len(), a));
    store.resolve(a)
}

fn is_literal(atom: Atom) -> bool
    ensures { IsTrue result → ¬ IsConstant atom }
{
    matches!(atom, Atom::Of(_))
}

/// The variable at which the walk of a label's class begins.
fn first(rt: &impl Abort, store: &EqStore, label: u32) -> Option<u32> {
    let itself = Atom::Of(Lit::of(label, true));
    assert!(rt; is_atom_of(store.view().len(), itself));
    assert!(rt; store.resolve(itself) == itself);
    store.first(label)
}

/// The variable behind another one in the walk of its class.
fn after(rt: &impl Abort, store: &EqStore, var: u32) -> Option<u32> {
    let itself = Atom::Of(Lit::of(var, true));
    assert!(rt; is_atom_of(store.view().len(), itself));
    assert!(rt; is_literal(store.resolve(itself)));
    store.after(var)
}

/// Merges two atoms of different classes, of which that of a variable loses.
fn change(rt: &impl Abort, store: &mut EqStore, a: &str, b: &str, loser: u32) -> Result<(), Fail> {
    let merged = merge(rt, store, atom(a)?, atom(b)?);
    assert_eq!(rt; merged, (Some(loser), Merged::Changed));
    Ok(())
}

/// The variables that a walk of a label's class meets in five steps, ascending.
fn walked(
    rt: &impl Abort,
    alloc: Global,
    store: &EqStore,
    label: u32,
) -> Result<Vec<u32>, AllocError> {
    let mut walk = Vec::new(alloc);
    let mut next = first(rt, store, label);
    for _step in 0..5 {
        if let Some(var) = next {
            walk.push(var)?;
            next = after(rt, store, var);
        }
    }
    assert_eq!(rt; next, None);
    walk.sort()?;
    Ok(walk)
}

#[test]
fn walks(rt: HostRuntime) -> Result<(), Fail> {
    let mut store = EqStore::with(rt.alloc(), 3)?;
    store.grow(2)?;
    change(&rt, &mut store, "5", "-2", 5)?;
    change(&rt, &mut store, "4", "5", 4)?;
    assert_eq!(rt; resolve(&rt, &store, atom("-4")?), atom("2")?);
    let met = walked(&rt, rt.alloc(), &store, 2)?;
    assert_eq!(rt; met.as_slice(), [2, 4, 5].as_slice());
    Ok(())
}

/// What an atom resolves to by plain labels.
fn plain_label(labels: &[Atom], a: Atom) -> Atom {
    match a {
        Atom::True => Atom::True,
        Atom::False => Atom::False,
        Atom::Of(literal) => {
            let place = (literal.var as usize).saturating_sub(1);
            let label = labels.get(place).copied().unwrap_or(a);
            if literal.positive { label } else { label.not() }
        }
    }
}

/// Whether an atom is a literal of a variable.
fn is_of(var: u32, a: Atom) -> bool {
    match a {
        Atom::True => false,
        Atom::False => false,
        Atom::Of(literal) => literal.var == var,
    }
}

/// How many labels are literals of an atom's variable.
fn plain_size(labels: &[Atom], a: Atom) -> usize {
    match a {
        Atom::True => usize::MAX,
        Atom::False => usize::MAX,
        Atom::Of(literal) => labels
            .iter()
            .filter(|label| is_of(literal.var, **label))
            .count(),
    }
}

/// The variable of an atom, 0 for a constant.
fn var_of(a: Atom) -> u32 {
    match a {
        Atom::True => 0,
        Atom::False => 0,
        Atom::Of(literal) => literal.var,
    }
}

/// Gives each literal of a label's variable what makes that label the other one.
fn plain_relabel(labels: &mut [Atom], lost: Atom, won: Atom) {
    for label in labels.iter_mut() {
        if *label == lost {
            *label = won;
        } else if *label == lost.not() {
            *label = won.not();
        }
    }
}

/// Merges two atoms in a plain list of labels, with a scan of all.
fn plain_merge(labels: &mut [Atom], a: Atom, b: Atom) -> Merged {
    let a = plain_label(labels, a);
    let b = plain_label(labels, b);
    if a == b {
        return Merged::Already;
    }
    if a == b.not() {
        return Merged::Clash;
    }
    let (size_of_a, size_of_b) = (plain_size(labels, a), plain_size(labels, b));
    if size_of_a < size_of_b || size_of_a == size_of_b && var_of(a) > var_of(b) {
        plain_relabel(labels, a, b);
    } else {
        plain_relabel(labels, b, a);
    }
    Merged::Changed
}

/// An atom in no order: seldom a constant, else a literal of one of the variables.
fn random_atom(numbers: &mut Numbers, vars: u32) -> Atom
    requires { 0 < vars }
{
    let kind = numbers.below(80);
    if kind == 0 {
        Atom::True
    } else if kind == 1 {
        Atom::False
    } else {
        Atom::Of(Lit {
            var: numbers.below(vars).saturating_add(1),
            positive: kind % 2 == 0,
        })
    }
}

/// How many labels are literals of each variable below 128.
fn plain_sizes(labels: &[Atom]) -> [u32; 128] {
    let mut sizes = [0_u32; 128];
    for label in labels {
        let place = (var_of(*label) % 128) as usize;
        sizes[place] = sizes[place].saturating_add(1);
    }
    sizes
}

/// Asserts that the walk of the class of a variable that is its own label meets so many members, and ends.
fn compare_class(rt: &impl Abort, store: &EqStore, var: u32, size: u32) {
    let mut met = 0_u32;
    let mut next = first(rt, store, var);
    for _step in 0..size {
        if let Some(member) = next {
            let label = resolve(rt, store, Atom::Of(Lit::of(member.clamp(1, 100), true)));
            assert!(rt; is_of(var, label));
            met = met.saturating_add(1);
            next = after(rt, store, member);
        }
    }
    assert_eq!(rt; next, None);
    assert_eq!(rt; met, size);
}

/// Asserts that the store has these labels, and that the walks of its classes are those of these labels.
fn compare(rt: &impl Abort, store: &EqStore, labels: &[Atom]) {
    assert!(rt; store.view() == labels);
    let sizes = plain_sizes(labels);
    let mut var = 1_u32;
    for label in labels {
        if *label == Atom::Of(Lit::of(var.clamp(1, 100), true)) {
            compare_class(rt, store, var, sizes[(var % 128) as usize]);
        }
        var = var.saturating_add(1);
    }
}

/// A store of three variables. Where memory is refused it is asked for again.
fn small(alloc: Global) -> Result<EqStore, AllocError> {
    match EqStore::with(alloc, 3) {
        Ok(store) => Ok(store),
        Err(_) => EqStore::with(alloc, 3),
    }
}

/// Adds variables to a store of these labels, again where that is refused.
fn grow_twice(rt: &impl Abort, store: &mut EqStore, labels: &[Atom]) -> Result<(), AllocError> {
    assert_eq!(rt; store.view().len(), 3);
    if store.grow(1_000).is_err() {
        compare(rt, store, labels);
        store.grow(1_000)?;
    }
    Ok(())
}

// `rt try --test --fail-alloc N` refuses the Nth allocation: one of the three of `with`, or one of the three of `grow`.
// What is refused is asked for again.
#[test]
fn growth_is_refused(rt: HostRuntime) -> Result<(), Fail> {
    let mut store = small(rt.alloc())?;
    let labels = [atom("1")?, atom("2")?, atom("-2")?];
    change(&rt, &mut store, "3", "-2", 3)?;
    grow_twice(&rt, &mut store, labels.as_slice())?;
    assert_eq!(rt; store.view().len(), 1_003);
    Ok(())
}

/// Pushes labels of variables that label themselves.
fn push_own(labels: &mut Vec<Atom>, more: u32) -> Result<(), AllocError> {
    for _label in 0..more {
        let var = u32::try_from(labels.len()).unwrap_or(0).saturating_add(1);
        labels.push(Atom::Of(Lit {
            var,
            positive: true,
        }))?;
    }
    Ok(())
}

/// Adds 20 variables to a store of 80, and to its labels.
fn grow_both(
    rt: &impl Abort,
    store: &mut EqStore,
    labels: &mut Vec<Atom>,
) -> Result<(), AllocError> {
    assert_eq!(rt; store.view().len(), 80);
    store.grow(20)?;
    push_own(labels, 20)
}

/// Merges two atoms in no order, in a store and in its labels, and compares both.
fn merge_both(
    rt: &impl Abort,
    numbers: &mut Numbers,
    store: &mut EqStore,
    labels: &mut [Atom],
    vars: u32,
)
    requires { 0 < vars }
{
    let a = random_atom(numbers, vars);
    let b = random_atom(numbers, vars);
    let (_loser, answer) = merge(rt, store, a, b);
    assert_eq!(rt; answer, plain_merge(labels, a, b), "{a:?} and {b:?}");
    compare(rt, store, labels);
}

/// Merges in a store of 80 variables, and then of 100.
fn merge_many(rt: &impl Abort, alloc: Global, numbers: &mut Numbers) -> Result<(), AllocError> {
    let mut store = EqStore::with(alloc, 80)?;
    let mut labels = Vec::new(alloc);
    push_own(&mut labels, 80)?;
    for _ in 0..60 {
        merge_both(rt, numbers, &mut store, labels.as_mut_slice(), 80);
    }
    grow_both(rt, &mut store, &mut labels)?;
    for _ in 0..140 {
        merge_both(rt, numbers, &mut store, labels.as_mut_slice(), 100);
    }
    Ok(())
}

#[test]
fn random_merges(rt: HostRuntime) -> Result<(), AllocError> {
    let mut numbers = Numbers::from(1);
    for _round in 0..50 {
        merge_many(&rt, rt.alloc(), &mut numbers)?;
    }
    Ok(())
}
