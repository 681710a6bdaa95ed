//! Under which valuations a core is met, and under which it isn't. A valuation is the truth values of the
//! first eight variables, the first one first: `1` is true.

ghost use Rattle.core_forms.specs.WellFormed.{IsWellFormed};

use core_forms::{Core, holds};
use core_words::core_of;
use std::alloc::Global;
use std::io;
use std::process::Abort;

/// A core, valuations that meet it, and valuations that do not.
type Row = (&'static str, &'static str, &'static str);

/// Forms over atoms.
static ATOMS: [Row; 12] = [
    (
        "Clause 1,-2,1",
        "00000000 11000000 10000000",
        "01000000 01111111",
    ),
    ("Clause none", "", "00000000 11111111"),
    ("Clause 1,T", "00000000 10000000", ""),
    (
        "Parity odd 1,2,-3",
        "00000000 10100000 11000000 01100000",
        "10000000 01000000 00100000 11100000",
    ),
    (
        "Parity even 1,2,-3",
        "10000000 01000000 00100000 11100000",
        "00000000 10100000 11000000 01100000",
    ),
    ("Parity even none", "00000000", ""),
    ("Parity odd none", "", "00000000"),
    (
        "Conj 4 1,-2,1",
        "00000000 10010000 11000000",
        "10000000 00010000 11010000",
    ),
    ("Conj -4 none", "00000000", "00010000"),
    (
        "Comp 1 2 3 4",
        "00000000 10100000 01100000 11110000",
        "10000000 01000000 11100000 00100000 10110000 00010000",
    ),
    (
        "Amo 1,2,-3",
        "00000000 00100000 10100000 01100000",
        "10000000 01000000 11100000 11000000",
    ),
    ("Amo none", "00000000", ""),
];

/// Forms over a few integers.
static INTEGERS: [Row; 7] = [
    (
        "Ladder 5..8@1",
        "00000000 10000000 11000000 11100000",
        "01000000 00100000 10100000 01100000",
    ),
    (
        "LeqR 5 0..2@1 1..3@3",
        "00001000 10001000 11000000 11101000",
        "00000000 11001000 01001000 00011000 11100000",
    ),
    (
        "EqR 5 0..2@1 1..3@3",
        "00000000 10001000 11101000 11110000",
        "00001000 10000000 11111000 01001000 00010000",
    ),
    ("EqR T -1..1@1 0", "10000000", "00000000 11000000 01000000"),
    (
        "Sum3 0..2@1 1..3@3 2..5@5",
        "10000000 11101100 11111110",
        "00000000 11101000 01000000 10011000 11000100",
    ),
    (
        "Count 1,2,-3 0..3@4",
        "00100000 00010000 11011100 11111000",
        "00000000 00001000 00110000 11010000",
    ),
    (
        "Count none -1..1@1",
        "10000000",
        "00000000 11000000 01000000",
    ),
];

/// Products and divisions.
static PRODUCTS: [Row; 4] = [
    (
        "Prod -1..1@1 2..3@3 -3..2@4",
        "00100000 00010000 10011100 10111100 11011111",
        "00000000 11111111 01011100 00001000",
    ),
    (
        "Prod -2..-1@1 -3..-2@2 2..6@3",
        "00111100 11000000 01110000 10100000",
        "00000000 00110000 11100000 01011000",
    ),
    (
        "DivMod 4..7@1 2..3@4 1..3@5 0..2@7",
        "00001000 00010010 11111010 11101110 11011000 10010011",
        "00000000 00000011 11111000 11111011 01001010 00000100 00010001",
    ),
    // The rest may be negative as an integer, and is then no rest.
    (
        "DivMod 5..6@1 3..4@2 1..2@3 -1..1@4",
        "01011000 10110000",
        "00100000 10101000",
    ),
];

/// Forms over lists of integers.
static LISTS: [Row; 9] = [
    (
        "Sum 0..2@1;-1..1@3;0..2@5 2",
        "11001000 10101000 00111000",
        "00000000 11111100 11000000 01101000 11000100",
    ),
    (
        "Sum -3..0@1;-2..2@4 -1",
        "11110000 00011110 11011000",
        "00000000 11111111 11101000",
    ),
    ("Sum none 0", "00000000", ""),
    ("Sum none 1", "", "00000000"),
    (
        "Max 0..2@1;1..3@3 0..3@5",
        "00001000 11001100 11111110",
        "00000000 11001110 11111100 01001000 00000100 00011100",
    ),
    (
        "AllDiff 0..2@1;0..2@3;2..4@5 T,T,T",
        "10000000 11001000 10111100",
        "00000000 11000000 10110000 01000000 10000100",
    ),
    (
        "AllDiff 0..2@1;0..2@3 5,-6",
        "00000000 00001100 10001000",
        "00001000 10101000 01000000",
    ),
    (
        "AllDiff 0..2@1;0..2@3;2..4@5 7,-7,T",
        "00000000 11000000 00110010",
        "11000010 00110000",
    ),
    (
        "AllDiff 0..2@1;0..2@3 T,F",
        "00000000 11110000",
        "01000000 00010000",
    ),
];

/// Orders of lists.
static ORDERS: [Row; 4] = [
    (
        "Lex or 7 0..2@1;0..1@3 0..2@4;0..1@6",
        "00000010 10000000 10010010 10110000 10110110 00110010",
        "00000000 10000110 10110010 00110000 01000000 00001010",
    ),
    (
        "Lex strict 7 0..2@1;0..1@3 0..2@4;0..1@6",
        "00000000 10010110 00110010 10110000 10110100",
        "00000010 10110110 10010100 10000010 01000000 00001010",
    ),
    ("Lex or 1 none none", "10000000", "00000000"),
    ("Lex strict 1 none none", "00000000", "10000000"),
];

/// The truth values of 24 variables, of which those behind the word are false.
fn truths(word: &str) -> [bool; 24] {
    let mut truths = [false; 24];
    for (truth, byte) in truths.iter_mut().zip(word.as_bytes()) {
        *truth = *byte == b'1';
    }
    truths
}

/// Asserts whether a core is met under each word's truth values.
fn each(rt: &impl Abort, text: &str, core: &Core, words: &str, met: bool)
    requires { IsWellFormed core.now }
{
    for word in words.split_whitespace() {
        let found = holds(core, truths(word).as_slice());
        assert_eq!(rt; found, met, "{text} at {word}");
    }
}

/// Tests a row.
fn check(rt: &impl Abort, alloc: Global, row: &Row) -> io::Result<()> {
    let core = core_of(alloc, row.0)?;
    each(rt, row.0, &core, row.1, true);
    each(rt, row.0, &core, row.2, false);
    Ok(())
}

#[test]
fn forms_mean(rt: HostRuntime) -> io::Result<()> {
    for rows in [
        ATOMS.as_slice(),
        INTEGERS.as_slice(),
        PRODUCTS.as_slice(),
        LISTS.as_slice(),
        ORDERS.as_slice(),
    ] {
        for row in rows {
            check(&rt, rt.alloc(), row)?;
        }
    }
    Ok(())
}
