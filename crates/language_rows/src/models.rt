//! What a text's model is, which assignments are in its domains, and which statement is the first that doesn't hold.

use crate::meanings::assignment;
use crate::typed::model;
use bee_list::Sequence;
use bumblebee_reader::{Name, read_model};
use model_meaning::{
    Assignment, BoolTerm, Decl, Goal, Kind, Model, Stmt, What, first_broken, in_domains, in_limits,
};
use std::alloc::{AllocError, Global};
use std::process::Abort;
use std::test::Fail;
use typed_model::{TypeFault, Typing, check_types};

/// Puts a declaration behind a text: its number, its name, and the domain of an integer.
fn push_declaration(text: &mut String, decl: &Decl) -> Result<(), Fail> {
    let number = decl.number;
    let name = str::from_utf8(decl.name.as_bytes())?;
    match &decl.kind {
        Kind::Bool => write!(text, "{number} {name}; ")?,
        Kind::Range { low, high } => write!(text, "{number} {name} {low}..{high}; ")?,
        Kind::Listed { values } => {
            let values = values.as_slice();
            write!(text, "{number} {name} {values:?}; ")?
        }
    }
    Ok(())
}

/// Puts a model behind a text: its declarations, the numbers of its statements, and its goal.
fn push_model(text: &mut String, model: &Model) -> Result<(), Fail> {
    for decl in model.decls.as_slice() {
        push_declaration(text, decl)?;
    }
    for stmt in model.stmts.as_slice() {
        write!(text, "{} ", stmt.number)?;
    }
    write!(text, "{:?}", model.goal)?;
    Ok(())
}

/// The model of a text in words.
fn shown(alloc: Global, text: &str) -> Result<String, Fail> {
    let model = model(alloc, text)?;
    let mut words = String::new(alloc);
    push_model(&mut words, &model)?;
    Ok(words)
}

static NUMBERED: [(&str, &str); 6] = [
    (
        "new_bool(x) int_eq(1,1) new_int(k,-2,3) bool2int(x,i) solve maximize k",
        "1 x; 3 k -2..3; 4 i 0..1; 2 4 Maximize(1, None)",
    ),
    (
        "new_bool(x) int_eq(1,1) new_int(k,-2,3) bool2int(-x,i) solve minimize i",
        "1 x; 3 k -2..3; 4 i 0..1; 2 4 Minimize(2, None)",
    ),
    (
        "new_int(i,0,1) new_int(j,0,2) solve minimize j then i",
        "1 i 0..1; 2 j 0..2; Minimize(1, Some(0))",
    ),
    (
        "new_int(i,[7,1,3,1]) solve maximize i",
        "1 i [1, 3, 7]; Maximize(0, None)",
    ),
    (
        "new_int(then,0,1) solve maximize then then then",
        "1 then 0..1; Maximize(0, Some(0))",
    ),
    ("solve satisfy", "Satisfy"),
];

#[test]
fn items_have_their_numbers(rt: HostRuntime) -> Result<(), Fail> {
    for (text, want) in &NUMBERED {
        let found = shown(rt.alloc(), text)?;
        assert_eq!(rt; found.as_str(), *want, "{text}");
    }
    Ok(())
}

/// The one statement of a text's model, in words.
fn statement_shown(alloc: Global, text: &str) -> Result<String, Fail> {
    let model = model(alloc, text)?;
    match model.stmts.as_slice() {
        [stmt] => Ok(format!(in alloc; "{:?}", stmt.what)?),
        _ => Err(Fail::from("one statement")),
    }
}

#[test]
fn a_statement_has_its_arguments(rt: HostRuntime) -> Result<(), Fail> {
    let what = statement_shown(rt.alloc(), "new_bool(x) bool2int(-x,i) solve satisfy")?;
    let want = "BoolToInt { truth: Of { place: 0, positive: false }, number: Of(1) }";
    assert_eq!(rt; what.as_str(), want);
    Ok(())
}

/// The values that are tried of a model with `new_bool(x) new_int(i,-2,3) bool2int(x,j)`, and whether they are in
/// its domains.
static DOMAINS: [(&str, bool); 12] = [
    ("0 -2 0", true),
    ("1 3 1", true),
    ("0 0 1", true),
    ("2 0 0", false),
    ("-1 0 0", false),
    ("0 4 0", false),
    ("0 -3 0", false),
    ("0 0 2", false),
    ("0 0 -1", false),
    ("0 0", false),
    ("0 0 0 0", false),
    ("", false),
];

/// The values that are tried of an integer with a listed domain.
static LISTED: [(&str, bool); 8] = [
    ("-6", false),
    ("-5", true),
    ("-4", false),
    ("0", false),
    ("3", true),
    ("5", false),
    ("7", true),
    ("8", false),
];

/// Whether values are in the domains of a text's model.
fn are_in_domains(alloc: Global, text: &str, numbers: &str) -> Result<bool, Fail> {
    let a = assignment(alloc, numbers)?;
    let model = model(alloc, text)?;
    Ok(in_domains(&model, &a))
}

/// Asserts which values are in the domains of a text's model.
fn domains(rt: &impl Abort, alloc: Global, text: &str, rows: &[(&str, bool)]) -> Result<(), Fail> {
    for (numbers, want) in rows {
        let found = are_in_domains(alloc, text, numbers)?;
        assert_eq!(rt; found, *want, "{numbers}");
    }
    Ok(())
}

#[test]
fn domains_have_their_bounds(rt: HostRuntime) -> Result<(), Fail> {
    let text = "new_bool(x) new_int(i,-2,3) bool2int(x,j) solve satisfy";
    domains(&rt, rt.alloc(), text, &DOMAINS)
}

#[test]
fn listed_domains_have_their_values(rt: HostRuntime) -> Result<(), Fail> {
    domains(
        &rt,
        rt.alloc(),
        "new_int(i,[7,-5,3,-5]) solve satisfy",
        &LISTED,
    )
}

/// The first statement that doesn't hold; `None` also where a value isn't in its domain.
fn broken(model: &Model, a: &Assignment) -> Option<u64> {
    if in_limits(model) && in_domains(model, a) {
        return first_broken(model, a);
    }
    None
}

/// The first statement of a text's model that doesn't hold under some values.
fn broken_at(alloc: Global, text: &str, numbers: &str) -> Result<Option<u64>, Fail> {
    let a = assignment(alloc, numbers)?;
    let model = model(alloc, text)?;
    Ok(broken(&model, &a))
}

/// Values of a model with `new_int(i,0,9) int_leq(i,7) new_int(j,0,9) int_geq(i,1) int_neq(i,j)`.
static BROKEN: [(&str, Option<u64>); 5] = [
    ("0 1", Some(4)),
    ("0 0", Some(4)),
    ("8 8", Some(2)),
    ("3 3", Some(5)),
    ("3 4", None),
];

#[test]
fn the_first_broken_statement_is_told(rt: HostRuntime) -> Result<(), Fail> {
    let text = "new_int(i,0,9) int_leq(i,7) new_int(j,0,9) int_geq(i,1) int_neq(i,j) solve satisfy";
    for (numbers, number) in &BROKEN {
        let found = broken_at(rt.alloc(), text, numbers)?;
        assert_eq!(rt; found, *number, "{numbers}");
    }
    Ok(())
}

/// Item 3, which declares a Boolean.
fn third(alloc: Global) -> Result<Decl, AllocError> {
    let name = Name::from_vec(Vec::from_slice(alloc, b"x")?);
    Ok(Decl {
        number: 3,
        name,
        kind: Kind::Bool,
    })
}

/// An item that states that the Boolean is what another term is.
fn stated(number: u64, right: BoolTerm) -> Stmt {
    let left = BoolTerm::Of {
        place: 0,
        positive: true,
    };
    Stmt {
        number,
        what: What::BoolEq { left, right },
    }
}

/// The declarations of a model whose numbers have gaps.
fn gaps_decls(alloc: Global) -> Result<Sequence<Decl>, AllocError> {
    let decl = third(alloc)?;
    let mut decls = Vec::new(alloc);
    decls.push(decl)?;
    Ok(Sequence::from_vec(decls))
}

/// Its statements: item 5 states that the Boolean is what it is, and item 9 that it is true.
fn gaps_stmts(alloc: Global) -> Result<Sequence<Stmt>, AllocError> {
    let itself = BoolTerm::Of {
        place: 0,
        positive: true,
    };
    let mut stmts = Vec::new(alloc);
    stmts.push(stated(5, itself))?;
    stmts.push(stated(9, BoolTerm::Const(true)))?;
    Ok(Sequence::from_vec(stmts))
}

/// A model whose numbers have gaps.
fn gaps(alloc: Global) -> Result<Model, AllocError> {
    let decls = gaps_decls(alloc)?;
    let stmts = gaps_stmts(alloc)?;
    Ok(Model {
        decls,
        stmts,
        goal: Goal::Satisfy,
    })
}

/// The number of the first statement of the model with gaps that doesn't hold under the values listed for its names.
fn broken_gap(alloc: Global, numbers: &str) -> Result<Option<u64>, Fail> {
    let a = assignment(alloc, numbers)?;
    let model = gaps(alloc)?;
    Ok(broken(&model, &a))
}

#[test]
fn numbers_may_have_gaps(rt: HostRuntime) -> Result<(), Fail> {
    assert_eq!(rt; broken_gap(rt.alloc(), "0")?, Some(9));
    assert_eq!(rt; broken_gap(rt.alloc(), "1")?, None);
    Ok(())
}

/// A model in words, or its fault.
fn told(alloc: Global, answer: Result<Model, TypeFault>) -> Result<String, Fail> {
    match answer {
        Ok(model) => Ok(format!(in alloc; "{model:?}")?),
        Err(fault) => Ok(format!(in alloc; "{fault}")?),
    }
}

/// What comes of the items of a text that are taken one by one.
fn taken(alloc: Global, text: &str) -> Result<String, Fail> {
    let syntax = read_model(alloc, text.as_bytes())?;
    let mut typing = Typing::new(alloc);
    for item in syntax.items.as_slice() {
        typing.take(alloc, item)?;
    }
    told(alloc, typing.finish())
}

/// What comes of the items of a text that are taken at once.
fn checked(alloc: Global, text: &str) -> Result<String, Fail> {
    let syntax = read_model(alloc, text.as_bytes())?;
    told(alloc, check_types(alloc, &syntax))
}

/// Whether the same comes of the items of a text one by one and at once.
fn comes_alike(alloc: Global, text: &str) -> Result<bool, Fail> {
    let want = checked(alloc, text)?;
    let found = taken(alloc, text)?;
    Ok(found.as_str() == want.as_str())
}

static TAKEN: [&str; 3] = [
    "new_int(i,0,5) bool2int(x,j) int_arrays_lex_reif([i],[j],x) int_array_allDiffCond([i,j],[x,true]) \
    solve minimize i",
    "new_bool(x) new_bool(x) new_bool(y) bool_eq(x,y) foo(x) solve satisfy",
    "new_bool(x)",
];

#[test]
fn items_may_come_one_by_one(rt: HostRuntime) -> Result<(), Fail> {
    for text in &TAKEN {
        assert!(rt; comes_alike(rt.alloc(), text)?, "{text}");
    }
    Ok(())
}

#[test]
fn a_fault_stays(rt: HostRuntime) -> Result<(), Fail> {
    let text = "new_bool(x) new_bool(x) new_bool(y) bool_eq(x,y) foo(x) solve satisfy";
    assert_eq!(rt; taken(rt.alloc(), text)?.as_str(), "statement 2: twice");
    Ok(())
}
