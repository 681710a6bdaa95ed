//! Lines of a ledger as texts, both ways.

use core_forms::{Equation, Rule};
use ledger_text::{Line, read_step, write_step};
use order_ints::{Atom, Lit};
use std::alloc::{AllocError, Global};
use std::process::Abort;

fn equate(id: u64, rule: Rule, a: Atom, b: Atom) -> Line {
    Line::Equate {
        id,
        e: Equation { rule, a, b },
    }
}

fn of(var: u32, positive: bool) -> Atom {
    Atom::Of(Lit { var, positive })
}

/// Asserts that a line has a text, both ways.
fn line_row(rt: &impl Abort, alloc: Global, line: Line, text: &str) -> Result<(), AllocError> {
    let written = write_step(alloc, &line)?;
    assert_eq!(rt; written.as_slice(), text.as_bytes(), "{text}");
    assert_eq!(rt; read_step(text.as_bytes()), Some(line), "{text}");
    Ok(())
}

#[test]
fn lines_are_written_and_read(rt: HostRuntime) -> Result<(), AllocError> {
    for (line, text) in [
        (Line::Split { id: 1 }, "split 1"),
        (Line::Encode { id: u64::MAX }, "enc 18446744073709551615"),
        (
            equate(7, Rule::Order, of(1, true), Atom::True),
            "eq 7 order 1 T",
        ),
        (
            equate(8, Rule::Form, Atom::False, of(2, false)),
            "eq 8 form F -2",
        ),
        (
            equate(10, Rule::Table, of(134_217_728, false), of(3, true)),
            "eq 10 table -134217728 3",
        ),
    ] {
        line_row(&rt, rt.alloc(), line, text)?;
    }
    Ok(())
}

/// What is no line.
static NO_LINES: [&str; 19] = [
    "",
    "split",
    "split ",
    " split 1",
    "split 1 ",
    "split  1",
    "split 01",
    "split -1",
    "split 18446744073709551616",
    "enc 1 2",
    "encode 1",
    "eq 1 order 1",
    "eq 1 order 1 2 3",
    "eq 1 orders 1 2",
    "eq 1 order 0 2",
    "eq 1 order 134217729 2",
    "eq 1 order t F",
    "eq 1 order --1 2",
    "eq 1 order 1 2\n",
];

#[test]
fn other_texts_are_no_lines(rt: HostRuntime) {
    for text in &NO_LINES {
        assert_eq!(rt; read_step(text.as_bytes()), None, "{text}");
    }
}
