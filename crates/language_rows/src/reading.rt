//! Short texts with their syntax or fault, worked out from the grammar by hand.

use bee_list::Sequence;
use bumblebee_reader::{
    Arg, GoalKind, Item, ItemReader, ReadFault, Syntax, Term, print_model, read_model,
};
use std::alloc::{AllocError, Global};
use std::process::Abort;
use std::test::Fail;

/// A fault in words.
fn fault_shown(alloc: Global, fault: ReadFault) -> Result<Vec<u8>, Fail> {
    match fault {
        ReadFault::Syntax(line) => Ok(format!(in alloc; "syntax {line}")?.into_bytes()),
        ReadFault::Number(line) => Ok(format!(in alloc; "number {line}")?.into_bytes()),
        ReadFault::Memory => Ok(Vec::from_slice(alloc, b"memory")?),
    }
}

/// The canonical text of what was read, or the fault in words.
fn shown(alloc: Global, text: &[u8]) -> Result<Vec<u8>, Fail> {
    match read_model(alloc, text) {
        Ok(syntax) => Ok(print_model(alloc, &syntax)?),
        Err(fault) => fault_shown(alloc, fault),
    }
}

/// Gaps and comments.
static GAPS: [(&[u8], &[u8]); 14] = [
    (b"", b""),
    (b" \t\r\n", b""),
    (b"% only a comment", b""),
    (b"% 1 % 2 f(x)\nf(y)", b"f(y)\n"),
    (b"%c\rf(x)\ng(y)", b"g(y)\n"),
    (b"f(x)%c", b"f(x)\n"),
    (b"f(x)g(y)", b"f(x)\ng(y)\n"),
    (b"f(x)\r\ng(y)", b"f(x)\ng(y)\n"),
    (b"\n f\n(\tx\r)\n\n", b"f(x)\n"),
    (b"f(x,% two\ny)", b"f(x,y)\n"),
    (b"f(x)%\xff\n", b"f(x)\n"),
    (b"f(\xff)", b"syntax 1"),
    (b"f(x)\x0b", b"syntax 1"),
    (b"\n\nf(x)\n;", b"syntax 4"),
];

/// Calls and their arguments.
static ARGUMENTS: [(&[u8], &[u8]); 23] = [
    (b"f(x)", b"f(x)\n"),
    (b"f(x,y,x)", b"f(x,y,x)\n"),
    (b"f([])", b"f([])\n"),
    (b"f([ ] , [ ])", b"f([],[])\n"),
    (b"f([x])", b"f([x])\n"),
    (b"f([x,-y,3,-4],-z)", b"f([x,-y,3,-4],-z)\n"),
    (b"x_1(_a9,A)", b"x_1(_a9,A)\n"),
    (
        b"sixteen_letters_(seventeen_letters)",
        b"sixteen_letters_(seventeen_letters)\n",
    ),
    (
        b"a_name_that_is_not_kept_inline(-another_name_of_more_than_sixteen_bytes)",
        b"a_name_that_is_not_kept_inline(-another_name_of_more_than_sixteen_bytes)\n",
    ),
    (b"f()", b"syntax 1"),
    (b"f", b"syntax 1"),
    (b"f(", b"syntax 1"),
    (b"f(x", b"syntax 1"),
    (b"f(x\n\n", b"syntax 3"),
    (b"f(x,\n)", b"syntax 2"),
    (b"f([x,])", b"syntax 1"),
    (b"f([,x])", b"syntax 1"),
    (b"f([[x]])", b"syntax 1"),
    (b"f([x)", b"syntax 1"),
    (b"f(x))", b"syntax 1"),
    (b"f(x y)", b"syntax 1"),
    (b"f x", b"syntax 1"),
    (b"(x)", b"syntax 1"),
];

/// Terms and numerals.
static TERMS: [(&[u8], &[u8]); 19] = [
    (b"f(- x)", b"f(-x)\n"),
    (b"f(--x)", b"syntax 1"),
    (b"f(+1)", b"syntax 1"),
    (b"f(-)", b"syntax 1"),
    (b"f(- 5)", b"f(-5)\n"),
    (b"f(-\n5)", b"f(-5)\n"),
    (b"f(-0)", b"f(0)\n"),
    (b"f(- 000)", b"f(0)\n"),
    (b"f(007,00000000000001)", b"f(7,1)\n"),
    (b"f(1x)", b"syntax 1"),
    (b"1x(y)", b"syntax 1"),
    (b"f(1073741824,-1073741824)", b"f(1073741824,-1073741824)\n"),
    (b"f(1073741825)", b"number 1"),
    (b"f(-\n1073741825)", b"number 2"),
    (b"f([0,99999999999999999999999999])", b"number 1"),
    (b"f(1073741825,,)", b"number 1"),
    (b"f(,1073741825)", b"syntax 1"),
    (b"f(x)\n1073741825", b"syntax 2"),
    (b"f(x\n1073741825)", b"syntax 2"),
];

/// Goals, and their words in other places.
static GOALS: [(&[u8], &[u8]); 13] = [
    (b"solve satisfy", b"solve satisfy\n"),
    (b"solve minimize x", b"solve minimize x\n"),
    (b"solve\nmaximize\n(\nx\n)", b"solve maximize x\n"),
    (
        b"solve satisfy solve satisfy",
        b"solve satisfy\nsolve satisfy\n",
    ),
    (b"solve minimize solve", b"solve minimize solve\n"),
    (
        b"solved(solve,satisfy)minimize(x)",
        b"solved(solve,satisfy)\nminimize(x)\n",
    ),
    (b"solve", b"syntax 1"),
    (b"solve satis", b"syntax 1"),
    (b"solve\nsatis\n\n", b"syntax 2"),
    (b"solve(x)", b"syntax 1"),
    (b"solve minimize ((x))", b"syntax 1"),
    (b"solve minimize (x", b"syntax 1"),
    (b"solve minimize 5", b"syntax 1"),
];

/// Whole models.
static WHOLES: [(&[u8], &[u8]); 3] = [
    (
        b" new_int( x , 007 ,9 ) % c\nsolve minimize (x)",
        b"new_int(x,7,9)\nsolve minimize x\n",
    ),
    (b"new_bool(x", b"syntax 1"),
    (
        b"new_bool(x)\nnew_int(y,0,1073741825)\nsolve satisfy",
        b"number 2",
    ),
];

/// Asserts what is read of texts.
fn reads_and_prints(rt: &impl Abort, alloc: Global, rows: &[(&[u8], &[u8])]) -> Result<(), Fail> {
    for (text, want) in rows {
        let got = shown(alloc, text)?;
        assert_eq!(rt; got.as_slice(), *want, "at {text:?}");
    }
    Ok(())
}

#[test]
fn reads_and_prints_short_texts(rt: HostRuntime) -> Result<(), Fail> {
    for rows in [
        GAPS.as_slice(),
        ARGUMENTS.as_slice(),
        TERMS.as_slice(),
        GOALS.as_slice(),
        WHOLES.as_slice(),
    ] {
        reads_and_prints(&rt, rt.alloc(), rows)?;
    }
    Ok(())
}

/// A second objective. `then` names no call, and elsewhere it is a name like others.
static SECOND_OBJECTIVES: [(&[u8], &[u8]); 19] = [
    (b"solve minimize x then y", b"solve minimize x then y\n"),
    (b"solve\nmaximize(x)then(\ny)", b"solve maximize x then y\n"),
    (b"solve minimize x\nthen(y)", b"solve minimize x then y\n"),
    (
        b"solve minimize then then then",
        b"solve minimize then then then\n",
    ),
    (
        b"new_int(then,0,1)\nsolve minimize then then then",
        b"new_int(then,0,1)\nsolve minimize then then then\n",
    ),
    (b"f(then,[-then])", b"f(then,[-then])\n"),
    (b"then_x(y)", b"then_x(y)\n"),
    (
        b"solve minimize x solve minimize y then z",
        b"solve minimize x\nsolve minimize y then z\n",
    ),
    (b"solve minimize x f(y)", b"solve minimize x\nf(y)\n"),
    (b"then(x)", b"syntax 1"),
    (b"f(x)\nthen(y)", b"syntax 2"),
    (b"solve satisfy\nthen x", b"syntax 2"),
    (b"solve minimize x then", b"syntax 1"),
    (b"solve minimize x\nthen\n\n", b"syntax 4"),
    (b"solve minimize x then 5", b"syntax 1"),
    (b"solve minimize x then (y", b"syntax 1"),
    (b"solve minimize x then ((y))", b"syntax 1"),
    (b"solve minimize x then y\nthen z", b"syntax 2"),
    (b"solve minimize x\n1073741825", b"syntax 2"),
];

#[test]
fn reads_and_prints_second_objectives(rt: HostRuntime) -> Result<(), Fail> {
    reads_and_prints(&rt, rt.alloc(), &SECOND_OBJECTIVES)
}

/// Whether the items are the call `f(x,[-y,-3])` and the goal `solve minimize z`.
fn has_parts(items: &[Item]) -> bool {
    let [
        Item::Call { name, args },
        Item::Goal {
            kind,
            objective: Some(objective),
            second: None,
        },
    ] = items
    else {
        return false;
    };
    let [Arg::One(Term::Plain(x)), Arg::Many(terms)] = args.as_slice() else {
        return false;
    };
    let [Term::Minus(y), Term::Number(-3)] = terms.as_slice() else {
        return false;
    };
    name.as_bytes() == b"f".as_slice()
        && x.as_bytes() == b"x".as_slice()
        && y.as_bytes() == b"y".as_slice()
        && *kind == GoalKind::Minimize
        && objective.as_bytes() == b"z".as_slice()
}

/// Whether a text has these items.
fn is_read_in_parts(alloc: Global, text: &[u8]) -> bool {
    match read_model(alloc, text) {
        Ok(syntax) => has_parts(syntax.items.as_slice()),
        Err(_) => false,
    }
}

#[test]
fn reads_the_parts_of_items(rt: HostRuntime) {
    assert!(rt; is_read_in_parts(rt.alloc(), b"f(x,[-y,-3])\nsolve minimize (z)"));
}

/// The canonical text of one item.
fn item_shown(alloc: Global, item: Item) -> Result<Vec<u8>, AllocError> {
    let mut alone = Vec::new(alloc);
    alone.push(item)?;
    let items = Sequence::from_vec(alone);
    print_model(alloc, &Syntax { items })
}

/// What one call gives: the item's canonical text, `end`, or the fault in words.
fn next_shown(alloc: Global, items: &mut ItemReader<'_>) -> Result<Vec<u8>, Fail> {
    match items.next_item(alloc) {
        Ok(Some(item)) => Ok(item_shown(alloc, item)?),
        Ok(None) => Ok(Vec::from_slice(alloc, b"end")?),
        Err(fault) => fault_shown(alloc, fault),
    }
}

/// Texts, and what three calls give of each.
static CALLS: [(&[u8], [&[u8]; 3]); 7] = [
    (b" % no item", [b"end", b"end", b"end"]),
    (b"f(x)\n% c\n", [b"f(x)\n", b"end", b"end"]),
    (
        b"f(x)solve minimize (z)\n",
        [b"f(x)\n", b"solve minimize z\n", b"end"],
    ),
    (
        b"solve minimize x\nf(y)",
        [b"solve minimize x\n", b"f(y)\n", b"end"],
    ),
    (
        b"solve minimize x\nthen",
        [b"syntax 2", b"syntax 2", b"syntax 2"],
    ),
    (b"f(x)\ng(\n)", [b"f(x)\n", b"syntax 3", b"syntax 3"]),
    (
        b"f(x)\ng(1073741825)\nh(y)",
        [b"f(x)\n", b"number 2", b"number 2"],
    ),
];

#[test]
fn gives_items_one_at_a_time(rt: HostRuntime) -> Result<(), Fail> {
    for (text, wants) in &CALLS {
        let mut items = ItemReader::new(text);
        for want in wants {
            let got = next_shown(rt.alloc(), &mut items)?;
            assert_eq!(rt; got.as_slice(), *want, "at {text:?}");
        }
    }
    Ok(())
}
