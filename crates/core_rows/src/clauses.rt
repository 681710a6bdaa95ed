//! Values worked out by hand.

use bee_list::Sequence;
use clause_order::OrderedClauses;
use order_ints::{Atom, Cnf, Lit, first_false, is_clause_true, label_of, ordered_clause, resolve};
use std::alloc::{AllocError, Global};

/// A small letter is a variable, `a` the first, and a great letter its negation.
fn lit(letter: u8) -> Lit {
    let first = if letter < b'a' { b'A' } else { b'a' };
    Lit::of(u32::from(letter.saturating_sub(first)) + 1, letter >= b'a')
}

fn clause(alloc: Global, letters: &str) -> Result<Sequence<Atom>, AllocError> {
    let mut atoms = Vec::new(alloc);
    for letter in letters.bytes() {
        atoms.push(Atom::Of(lit(letter)))?;
    }
    Ok(Sequence::from_vec(atoms))
}

fn literals(alloc: Global, letters: &str) -> Result<Sequence<Lit>, AllocError> {
    let mut literals = Vec::new(alloc);
    for letter in letters.bytes() {
        literals.push(lit(letter))?;
    }
    Ok(Sequence::from_vec(literals))
}

/// The clauses between blanks, over six variables.
fn cnf(alloc: Global, text: &str) -> Result<Cnf, AllocError> {
    let mut clauses = Vec::new(alloc);
    for letters in text.split(' ') {
        clauses.push(literals(alloc, letters)?)?;
    }
    Ok(Cnf {
        vars: 6,
        clauses: Sequence::from_vec(clauses),
    })
}

/// The letter of a literal.
fn letter(literal: Lit) -> u8 {
    let first = if literal.positive { b'a' } else { b'A' };
    first.saturating_add(u8::try_from(literal.var.saturating_sub(1)).unwrap_or(0))
}

/// Adds a clause as its literals' letters, a small one for a positive literal, and a blank.
fn show_clause(text: &mut Vec<u8>, literals: &[Lit]) -> Result<(), AllocError> {
    for literal in literals {
        text.push(letter(*literal))?;
    }
    text.push(b' ')?;
    Ok(())
}

/// The clauses, each with a blank behind it.
fn show(alloc: Global, cnf: &Cnf) -> Result<Vec<u8>, AllocError> {
    let mut text = Vec::new(alloc);
    for clause in cnf.clauses.as_slice() {
        show_clause(&mut text, clause.as_slice())?;
    }
    Ok(text)
}

/// Variable 2 is true, 3 is false, and 4 is the negation of 1; 6 is past the view's end.
const VIEW: [Atom; 5] = [
    Atom::Of(Lit {
        var: 1,
        positive: true,
    }),
    Atom::True,
    Atom::False,
    Atom::Of(Lit {
        var: 1,
        positive: false,
    }),
    Atom::Of(Lit {
        var: 5,
        positive: true,
    }),
];

/// Adds a clause.
fn add(alloc: Global, ordered: &mut OrderedClauses, letters: &str) -> Result<(), AllocError> {
    let unordered = clause(alloc, letters)?;
    ordered.add(alloc, &VIEW, unordered.as_slice())
}

/// The clauses between blanks, put in order.
fn put_in_order(alloc: Global, text: &str) -> Result<Cnf, AllocError> {
    let mut ordered = OrderedClauses::new(alloc);
    for letters in text.split(' ') {
        add(alloc, &mut ordered, letters)?;
    }
    ordered.into_cnf(alloc, 6)
}

#[test]
fn clauses_are_put_in_order(rt: HostRuntime) -> Result<(), AllocError> {
    let cnf = put_in_order(rt.alloc(), "ea cFcF be afd eDa Bc Ed F")?;
    let found = show(rt.alloc(), &cnf)?;
    assert_eq!(rt; found.as_slice(), b"ae F  AE ".as_slice());
    Ok(())
}

/// A clause put in order alone, with a blank behind it; nothing where it is always true.
fn one_put_in_order(alloc: Global, letters: &str) -> Result<Vec<u8>, AllocError> {
    let unordered = clause(alloc, letters)?;
    let mut found = Vec::new(alloc);
    if let Some(kept) = ordered_clause(alloc, &[], unordered.as_slice())? {
        show_clause(&mut found, kept.as_slice())?;
    }
    Ok(found)
}

#[test]
fn one_clause_is_put_in_order(rt: HostRuntime) -> Result<(), AllocError> {
    let found = one_put_in_order(rt.alloc(), "dBd")?;
    assert_eq!(rt; found.as_slice(), b"Bd ".as_slice());
    Ok(())
}

#[test]
fn views(rt: HostRuntime) {
    assert_eq!(rt; resolve(&VIEW, Atom::Of(lit(b'D'))), Atom::Of(lit(b'a')));
    assert_eq!(rt; label_of(&VIEW, 6), Atom::Of(lit(b'f')));
    assert!(rt; is_clause_true(&[lit(b'A'), lit(b'b')], &[true, true]));
}

#[test]
fn first_false_clauses(rt: HostRuntime) -> Result<(), AllocError> {
    let cnf = cnf(rt.alloc(), "aB bc AC")?;
    for (values, place) in [
        ([true, true, false], None),
        ([false, true, false], Some(0)),
        ([true, false, false], Some(1)),
        ([true, true, true], Some(2)),
    ] {
        assert_eq!(rt; first_false(&cnf, &values), place);
    }
    Ok(())
}
