//! Documents that are written from values, each with its whole text.

ghost use Rattle.std.specs.Prelude.{◌≡◌, IsTrue, IfSome, length};

use crate::models::small_model;
use answer_document::{Bounds, Document, Verdict, write_document};
use bee_list::Sequence;
use core_forms::{Equation, Rule};
use ledger_text::Line;
use model_meaning::{Assignment, Decl};
use order_ints::{Atom, Lit};
use proof_check::ProofLine;
use std::alloc::{AllocError, Global};
use std::process::Abort;
use std::test::Fail;

/// A line of a derivation: a clause with its id and its hints, or ids behind the one that the line begins with. A
/// literal is a variable, or the negative number of one.
#[derive(Clone, Copy)]
enum Derived {
    Add(u64, &'static [i64], &'static [i64]),
    Delete(u64, &'static [u64]),
}

/// A document for a model, and its text.
struct Row {
    model: &'static str,
    verdict: Verdict,
    values: Option<&'static [i64]>,
    ledger: &'static [Line],
    proof: &'static [Derived],
    second: Option<&'static [Derived]>,
    text: &'static str,
}

const PAIRS: &str =
    "new_bool(a) new_bool(b) bool_array_or([a,b]) bool_array_or([a,-b]) bool_array_or([-a,b]) bool_array_or([-a,-b]) \
    solve satisfy";

/// All four clauses of it.
const ENCODED: [Line; 4] = [
    Line::Encode { id: 1 },
    Line::Encode { id: 2 },
    Line::Encode { id: 3 },
    Line::Encode { id: 4 },
];

const TWO: &str = "new_int(x,0,2) new_int(y,0,2) int_plus(x,y,2) solve minimize x then y";

/// The first variable's atom.
const FIRST: Atom = Atom::Of(Lit {
    var: 1,
    positive: true,
});

/// The negation of the fourth one's.
const NO_FOURTH: Atom = Atom::Of(Lit {
    var: 4,
    positive: false,
});

/// The negation of the greatest one's.
const NO_GREATEST: Atom = Atom::Of(Lit {
    var: 134_217_728,
    positive: false,
});

static SOLUTIONS: [Row; 2] = [
    Row {
        model: "solve satisfy",
        verdict: Verdict::Satisfiable,
        values: Some(&[]),
        ledger: &[],
        proof: &[],
        second: None,
        text: "bee 1\nSATISFIABLE\nend\n",
    },
    // Names of each kind; a solution alone leaves out what else there is.
    Row {
        model: "new_bool(a) new_int(i,-3,3) new_int(j,[9,5,7]) new_bool(_b2) bool2int(_b2,k) solve satisfy",
        verdict: Verdict::Satisfiable,
        values: Some(&[1, -3, 7, 0, 0]),
        ledger: &[Line::Encode { id: 1 }],
        proof: &[Derived::Add(5, &[1], &[1, 2])],
        second: Some(&[]),
        text: "bee 1\nSATISFIABLE\na = true\ni = -3\nj = 7\n_b2 = false\nk = 0\nend\n",
    },
];

static REFUTATIONS: [Row; 4] = [
    Row {
        model: "bool_array_or([]) solve satisfy",
        verdict: Verdict::Unsatisfiable,
        values: None,
        ledger: &[Line::Equate {
            id: 1,
            e: Equation {
                rule: Rule::Form,
                a: Atom::True,
                b: Atom::False,
            },
        }],
        proof: &[],
        second: None,
        text: "bee 1\nUNSATISFIABLE\nledger\neq 1 form T F\nproof\nend\n",
    },
    Row {
        model: PAIRS,
        verdict: Verdict::Unsatisfiable,
        values: None,
        ledger: &ENCODED,
        proof: &[
            Derived::Add(5, &[1], &[1, 2]),
            Derived::Add(6, &[], &[5, 3, 4]),
        ],
        second: None,
        text: "bee 1\nUNSATISFIABLE\nledger\nenc 1\nenc 2\nenc 3\nenc 4\nproof\n5 1 0 1 2 0\n6 0 5 3 4 0\nend\n",
    },
    // Deletions, of two clauses and of none.
    Row {
        model: PAIRS,
        verdict: Verdict::Unsatisfiable,
        values: None,
        ledger: &ENCODED,
        proof: &[
            Derived::Add(5, &[1], &[1, 2]),
            Derived::Delete(5, &[2, 1]),
            Derived::Delete(9, &[]),
            Derived::Add(6, &[], &[5, 3, 4]),
        ],
        second: None,
        text: "bee 1\nUNSATISFIABLE\nledger\nenc 1\nenc 2\nenc 3\nenc 4\nproof\n5 1 0 1 2 0\n5 d 2 1 0\n9 d 0\n\
        6 0 5 3 4 0\nend\n",
    },
    Row {
        model: PAIRS,
        verdict: Verdict::Unknown(1, None),
        values: None,
        ledger: &ENCODED,
        proof: &[Derived::Add(5, &[1], &[1, 2])],
        second: None,
        text: "bee 1\nUNKNOWN 1\nledger\nenc 1\nenc 2\nenc 3\nenc 4\nproof\n5 1 0 1 2 0\nend\n",
    },
];

static BOUNDS: [Row; 6] = [
    Row {
        model: "new_int(x,0,2) int_neq(x,0) solve minimize x",
        verdict: Verdict::Optimum(Bounds {
            first: 1,
            second: None,
        }),
        values: Some(&[1]),
        ledger: &[Line::Equate {
            id: 2,
            e: Equation {
                rule: Rule::Form,
                a: Atom::True,
                b: FIRST,
            },
        }],
        proof: &[],
        second: None,
        text: "bee 1\nOPTIMUM 1\nx = 1\nledger\neq 2 form T 1\nproof\nend\n",
    },
    Row {
        model: "new_int(x,-2,2) int_leq(x,1) solve maximize x",
        verdict: Verdict::Optimum(Bounds {
            first: 1,
            second: None,
        }),
        values: Some(&[1]),
        ledger: &[Line::Encode { id: 2 }],
        proof: &[],
        second: None,
        text: "bee 1\nOPTIMUM 1\nx = 1\nledger\nenc 2\nproof\nend\n",
    },
    Row {
        model: TWO,
        verdict: Verdict::Optimum(Bounds {
            first: 0,
            second: Some(2),
        }),
        values: Some(&[0, 2]),
        ledger: &[Line::Equate {
            id: 3,
            e: Equation {
                rule: Rule::Form,
                a: FIRST,
                b: NO_FOURTH,
            },
        }],
        proof: &[],
        second: Some(&[]),
        text: "bee 2\nOPTIMUM 0 2\nx = 0\ny = 2\nledger\neq 3 form 1 -4\nproof\nsecond\nend\n",
    },
    Row {
        model: "new_int(x,0,2) int_neq(x,0) solve minimize x",
        verdict: Verdict::Unknown(
            1,
            Some(Bounds {
                first: 2,
                second: None,
            }),
        ),
        values: Some(&[2]),
        ledger: &[Line::Encode { id: 1 }, Line::Encode { id: 2 }],
        proof: &[Derived::Add(3, &[1], &[2])],
        second: None,
        text: "bee 1\nUNKNOWN 1\nbest 2\nx = 2\nledger\nenc 1\nenc 2\nproof\n3 1 0 2 0\nend\n",
    },
    // The second derivation begins with the clause that x is at most 0.
    Row {
        model: TWO,
        verdict: Verdict::Unknown(
            2,
            Some(Bounds {
                first: 0,
                second: Some(2),
            }),
        ),
        values: Some(&[0, 2]),
        ledger: &[Line::Encode { id: 1 }, Line::Encode { id: 2 }],
        proof: &[Derived::Add(3, &[1, -2], &[1])],
        second: Some(&[Derived::Add(4, &[-1], &[3])]),
        text: "bee 2\nUNKNOWN 2\nbest 0 2\nx = 0\ny = 2\nledger\nenc 1\nenc 2\nproof\n3 1 -2 0 1 0\nsecond\n\
        4 -1 0 3 0\nend\n",
    },
    // The greatest numbers, and lines of each kind.
    Row {
        model: "new_int(x,0,1) new_int(y,0,1) solve maximize x then y",
        verdict: Verdict::Optimum(Bounds {
            first: i64::MIN,
            second: Some(i64::MAX),
        }),
        values: Some(&[i64::MIN, i64::MAX]),
        ledger: &[
            Line::Equate {
                id: u64::MAX,
                e: Equation {
                    rule: Rule::Order,
                    a: Atom::True,
                    b: NO_GREATEST,
                },
            },
            Line::Equate {
                id: 0,
                e: Equation {
                    rule: Rule::Table,
                    a: FIRST,
                    b: Atom::False,
                },
            },
            Line::Split { id: 7 },
        ],
        proof: &[Derived::Add(u64::MAX, &[-134_217_728, 1], &[i64::MIN, i64::MAX])],
        second: Some(&[Derived::Delete(1, &[u64::MAX])]),
        text: "bee 2\nOPTIMUM -9223372036854775808 9223372036854775807\nx = -9223372036854775808\n\
        y = 9223372036854775807\nledger\neq 18446744073709551615 order T -134217728\neq 0 table 1 F\nsplit 7\nproof\n\
        18446744073709551615 -134217728 1 0 -9223372036854775808 9223372036854775807 0\nsecond\n\
        1 d 18446744073709551615 0\nend\n",
    },
];

/// The literal of a number.
fn literal(number: i64) -> Lit {
    Lit {
        var: u32::try_from(number.unsigned_abs()).unwrap_or(0),
        positive: 0 < number,
    }
}

/// The literals of numbers.
fn literals(alloc: Global, numbers: &[i64]) -> Result<Sequence<Lit>, AllocError> {
    let mut lits = Vec::new(alloc);
    for number in numbers {
        lits.push(literal(*number))?;
    }
    Ok(Sequence::from_vec(lits))
}

/// A line of a derivation.
fn line(alloc: Global, derived: Derived) -> Result<ProofLine, AllocError> {
    match derived {
        Derived::Add(id, lits, hints) => Ok(ProofLine::Add {
            id,
            lits: literals(alloc, lits)?,
            hints: Sequence::from_vec(hints.to_vec(alloc)?),
        }),
        Derived::Delete(at, ids) => Ok(ProofLine::Delete {
            at,
            ids: Sequence::from_vec(ids.to_vec(alloc)?),
        }),
    }
}

/// A derivation.
fn derivation(alloc: Global, derived: &[Derived]) -> Result<Sequence<ProofLine>, AllocError> {
    let mut lines = Vec::new(alloc);
    for one in derived {
        lines.push(line(alloc, *one)?)?;
    }
    Ok(Sequence::from_vec(lines))
}

/// The document of a row.
fn document(alloc: Global, row: &Row) -> Result<Document, AllocError> {
    let assignment = match row.values {
        Some(values) => Some(Assignment {
            values: Sequence::from_vec(values.to_vec(alloc)?),
        }),
        None => None,
    };
    let second = match row.second {
        Some(lines) => Some(derivation(alloc, lines)?),
        None => None,
    };
    Ok(Document {
        verdict: row.verdict,
        assignment,
        ledger: Sequence::from_vec(row.ledger.to_vec(alloc)?),
        proof: derivation(alloc, row.proof)?,
        second,
    })
}

/// Whether an assignment has a value for each name, where there is one.
fn has_values(decls: &[Decl], assignment: &Option<Assignment>) -> bool
    ensures { IsTrue result → IfSome assignment.now (λ a. length decls.now ≡ length a.values) }
{
    match assignment {
        Some(given) => decls.len() == given.values.as_slice().len(),
        None => true,
    }
}

/// Asserts that documents are written as these texts.
fn are_written(rt: &impl Abort, alloc: Global, rows: &[Row]) -> Result<(), Fail> {
    for row in rows {
        let model = small_model(alloc, row.model)?;
        let document = document(alloc, row)?;
        let decls = model.decls.as_slice();
        if !has_values(decls, &document.assignment) {
            return Err(Fail::from("a value for each name"));
        }
        let text = write_document(alloc, decls, model.goal, &document)?;
        assert_eq!(rt; text.as_slice(), row.text.as_bytes(), "{}", row.text);
    }
    Ok(())
}

#[test]
fn solutions(rt: HostRuntime) -> Result<(), Fail> {
    are_written(&rt, rt.alloc(), &SOLUTIONS)
}

#[test]
fn refutations(rt: HostRuntime) -> Result<(), Fail> {
    are_written(&rt, rt.alloc(), &REFUTATIONS)
}

#[test]
fn bounds(rt: HostRuntime) -> Result<(), Fail> {
    are_written(&rt, rt.alloc(), &BOUNDS)
}
