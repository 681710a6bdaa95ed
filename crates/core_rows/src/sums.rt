//! The shapes of integers, and the sums of their values.

use core_cost::Shape;
use core_forms::{shape, sums};
use core_words::int;
use std::alloc::Global;
use std::io;

/// The shape of an integer of even weights.
const EVEN: Shape = Shape {
    steps: 2,
    span: 10,
    divisor: 2,
};

/// Two integers, and the sums of their values.
static SUMS: [(&str, &str, &[i128]); 4] = [
    // There are no repeats.
    ("0,1,10", "-1,0,9", &[-1, 0, 1, 9, 10, 19]),
    // A constant twice.
    ("3", "3", &[6]),
    // Eight pairs beside the least one, and seven multiples of 2 from 0 to 12.
    ("0,2,4", "0,4,8", &[0, 2, 4, 6, 8, 10, 12]),
    // 7 and 8 are no sums, yet the fresh integer has them: each number from 0 to 11 is fewer than 18 sums.
    (
        "0,1,2,3,4,9",
        "0..2",
        &[0, 1, 2, 3, 4, 5, 6, 7, 8, 9, 10, 11],
    ),
];

#[test]
fn integers_have_shapes(rt: HostRuntime) -> io::Result<()> {
    for (text, wanted) in [
        ("1,5,11", EVEN),
        ("-3", Shape::constant()),
        ("-3..4", Shape::units(7)),
    ] {
        let a = int(rt.alloc(), text)?;
        assert_eq!(rt; shape(&a), wanted, "{text}");
    }
    Ok(())
}

/// The sums of the values of two integers.
fn sums_of(alloc: Global, first: &str, second: &str) -> io::Result<Vec<i128>> {
    let a = int(alloc, first)?;
    let b = int(alloc, second)?;
    Ok(sums(alloc, &a, &b)?)
}

#[test]
fn values_have_sums(rt: HostRuntime) -> io::Result<()> {
    for (first, second, wanted) in &SUMS {
        let found = sums_of(rt.alloc(), first, second)?;
        assert_eq!(rt; found.as_slice(), *wanted, "{first} and {second}");
    }
    Ok(())
}
