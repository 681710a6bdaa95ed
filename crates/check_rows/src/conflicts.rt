//! Texts that are taken for those of conflicts, and others.

use crate::models::{HEAVY, small_model};
use conflict_check::{CoreFault, check_core};
use conflict_text::push_verdict;
use std::alloc::{AllocError, Global};
use std::test::Fail;

/// A model, a text, and what is told of them.
type Row = (&'static str, &'static str, &'static str);

/// Two statements that nothing meets.
const OPPOSED: &str = "new_bool(a) bool_array_or([a]) bool_array_or([-a]) solve satisfy";

static ROWS: [Row; 4] = [
    (
        OPPOSED,
        "bee core 1\nCORE 2\nstatement 2\nstatement 3\nledger\neq 1 form 1 T\neq 2 form T F\nproof\nwithout 2\n\
        a = false\nwithout 3\na = true\nend\n",
        "CORE 2",
    ),
    (
        OPPOSED,
        "bee core 1\nCORE 2\nstatement 2\nstatement 3\nledger\neq 1 form 1 T\neq 2 form T F\nproof\nwithout 2\n\
        a = true\nwithout 3\na = true\nend\n",
        "line 11",
    ),
    (
        OPPOSED,
        "bee core 1\nCORE 2\nstatement 2\nledger\n",
        "line 4",
    ),
    (HEAVY, "", "weight 299999998"),
];

/// What is told of a text.
fn told(alloc: Global, model: &str, text: &str) -> Result<Vec<u8>, Fail> {
    let model = small_model(alloc, model)?;
    let mut out = Vec::new(alloc);
    match check_core(alloc, model, text.as_bytes()) {
        Ok(verdict) => push_verdict(&mut out, verdict)?,
        Err(CoreFault::Refused(line)) => {
            out.extend_from_slice(format!(in alloc; "line {line}")?.as_bytes())?;
        }
        Err(CoreFault::TooHeavy(weight)) => {
            out.extend_from_slice(format!(in alloc; "weight {weight}")?.as_bytes())?;
        }
        Err(CoreFault::Memory) => return Err(Fail::from("memory")),
    }
    Ok(out)
}

#[test]
fn conflicts_are_told_valid(rt: HostRuntime) -> Result<(), Fail> {
    for (model, text, wanted) in &ROWS {
        let found = told(rt.alloc(), model, text)?;
        assert_eq!(rt; found.as_slice(), wanted.as_bytes(), "{text}");
    }
    Ok(())
}
