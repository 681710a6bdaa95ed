//! Worked values of numbers, lines and words.

use bee_text::{
    Lines, end_line, is_word, next_word, push_blank, push_bytes, push_number, push_signed,
    read_number, read_signed, split_words,
};
use std::alloc::AllocError;
use std::test::Fail;

/// Texts, and the numbers that they are.
static NUMBERS: [(&str, Option<u128>); 11] = [
    ("0", Some(0)),
    ("9", Some(9)),
    ("10", Some(10)),
    ("340282366920938463463374607431768211455", Some(u128::MAX)),
    ("340282366920938463463374607431768211456", None),
    (
        "999999999999999999999999999999999999999999999999999999999999",
        None,
    ),
    ("", None),
    ("00", None),
    ("007", None),
    ("+7", None),
    ("7 ", None),
];

/// Texts, and the numbers with a sign that they are.
static SIGNED: [(&str, Option<i128>); 8] = [
    ("-1", Some(-1)),
    ("-170141183460469231731687303715884105728", Some(i128::MIN)),
    ("-170141183460469231731687303715884105729", None),
    ("170141183460469231731687303715884105727", Some(i128::MAX)),
    ("170141183460469231731687303715884105728", None),
    ("-0", None),
    ("-", None),
    ("--1", None),
];

#[test]
fn numbers(rt: HostRuntime) {
    for (text, want) in &NUMBERS {
        assert_eq!(rt; read_number(text.as_bytes(), u128::MAX), *want, "{text}");
    }
    for (text, want) in &SIGNED {
        assert_eq!(rt; read_signed(text.as_bytes(), u128::MAX), *want, "{text}");
    }
    assert_eq!(rt; read_number(b"10", 9), None);
    assert_eq!(rt; read_signed(b"-10", 9), None);
}

/// The greatest number, and behind it, in a line of its own, a word and the least number with a sign.
fn push_extremes(text: &mut Vec<u8>) -> Result<(), AllocError> {
    push_number(text, u128::MAX)?;
    end_line(text)?;
    push_bytes(text, b"p")?;
    push_blank(text)?;
    push_signed(text, i128::MIN)
}

#[test]
fn numbers_are_written(rt: HostRuntime) -> Result<(), AllocError> {
    let mut out = Vec::new(rt.alloc());
    push_extremes(&mut out)?;
    let want =
        b"340282366920938463463374607431768211455\np -170141183460469231731687303715884105728";
    assert_eq!(rt; out.as_slice(), want.as_slice());
    Ok(())
}

#[test]
fn lines_and_words(rt: HostRuntime) -> Result<(), Fail> {
    let mut lines = Lines::new(b"p cnf\n\nend");
    let first = lines.next_line().ok_or("no line 1")?;
    assert_eq!(rt; first.number, 1);
    let second = lines.next_line().ok_or("no line 2")?;
    assert_eq!(rt; second.number, 2);
    assert!(rt; second.bytes.is_empty());
    assert!(rt; lines.next_line().is_none());
    assert_eq!(rt; lines.rest(), b"end".as_slice());
    let mut words = split_words(first.bytes);
    assert_eq!(rt; words.next_word().ok_or("no word 1")?, b"p".as_slice());
    assert_eq!(rt; words.next_word().ok_or("no word 2")?, b"cnf".as_slice());
    assert!(rt; words.next_word().is_none());
    let (word, rest) = next_word(b" \t ab\r c").ok_or("no word")?;
    assert_eq!(rt; word, b"ab".as_slice());
    assert_eq!(rt; rest, b"\r c".as_slice());
    assert!(rt; next_word(b" \t").is_none());
    assert!(rt; is_word(b"x") && !is_word(b"x y") && !is_word(b""));
    Ok(())
}
