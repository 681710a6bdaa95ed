//! Texts that are taken for lists of solutions, and others.

use crate::models::{HEAVY, small_model};
use list_check::{ListFault, check_list};
use list_text::push_verdict;
use std::alloc::{AllocError, Global};
use std::test::Fail;

/// A model, a text, and what is told of them.
type Row = (&'static str, &'static str, &'static str);

/// A model of one solution.
const ONE: &str = "new_bool(a) bool_array_or([a]) solve satisfy";

static ROWS: [Row; 4] = [
    (
        ONE,
        "bee all 1\nALL 1\nsolution\na = true\nledger\neq 1 form 1 T\nenc 1\nproof\nend\n",
        "ALL 1",
    ),
    (
        ONE,
        "bee all 1\nALL 1\nsolution\na = false\nledger\neq 1 form 1 T\nenc 1\nproof\nend\n",
        "line 5",
    ),
    (ONE, "bee all 1\nALL 1\n", "line 3"),
    (HEAVY, "", "weight 299999998"),
];

/// What is told of a text.
fn told(alloc: Global, model: &str, text: &str) -> Result<Vec<u8>, Fail> {
    let model = small_model(alloc, model)?;
    let mut out = Vec::new(alloc);
    match check_list(alloc, &model, text.as_bytes()) {
        Ok(verdict) => push_verdict(&mut out, verdict)?,
        Err(ListFault::Refused(line)) => {
            out.extend_from_slice(format!(in alloc; "line {line}")?.as_bytes())?;
        }
        Err(ListFault::TooHeavy(weight)) => {
            out.extend_from_slice(format!(in alloc; "weight {weight}")?.as_bytes())?;
        }
        Err(ListFault::Memory) => return Err(Fail::from("memory")),
    }
    Ok(out)
}

#[test]
fn lists_are_told_valid(rt: HostRuntime) -> Result<(), Fail> {
    for (model, text, wanted) in &ROWS {
        let found = told(rt.alloc(), model, text)?;
        assert_eq!(rt; found.as_slice(), wanted.as_bytes(), "{text}");
    }
    Ok(())
}
