//! Costs by numbers alone: what the rows of cores do not show.

use core_cost::{
    Shape, amo_cost, common_divisor, count_cost, fresh_sum, is_network_cheaper, lex_cost,
    network_cost, parity_cost, sum_cost, sum3_cost,
};
use std::alloc::AllocError;

const FOURS: Shape = Shape {
    steps: 2,
    span: 12,
    divisor: 4,
};

const SIXES: Shape = Shape {
    steps: 3,
    span: 30,
    divisor: 6,
};

#[test]
fn lists_cost(rt: HostRuntime) {
    for (members, parity, amo) in [
        (0, 0, 0),
        (1, 1, 0),
        (2, 4, 2),
        (3, 12, 6),
        (4, 25, 12),
        (5, 38, 19),
        (6, 51, 25),
        (7, 64, 32),
    ] {
        assert_eq!(rt;
            (parity_cost(members), amo_cost(members)),
            (parity, amo),
            "{members} members"
        );
    }
    assert_eq!(rt; (lex_cost(&[]), lex_cost(&[(2, 3), (0, 1)])), (1, 81));
    for (members, steps, cost) in [
        (0, 2, 8),
        (1, 0, 12),
        (2, 2, 26),
        (3, 3, 70),
        (40, 20, 6681),
    ] {
        assert_eq!(rt; count_cost(members, steps), cost, "count of {members}");
    }
}

#[test]
fn networks_cost(rt: HostRuntime) {
    for (first, second, sum_steps, cost) in [
        (20, 20, 0, 2153),
        (
            1 << 100,
            (1 << 100) - 1,
            5,
            6_925_254_457_209_331_484_714_083_154_917_483,
        ),
        // Past 128 bits.
        (u128::MAX, 1, 0, u128::MAX),
    ] {
        assert_eq!(rt;
            network_cost(first, second, sum_steps),
            cost,
            "{first} and {second}"
        );
    }
    // At 11 steps the network costs 887 and the table 864, at 12 they cost 1,001 and 1,014.
    assert!(rt; !is_network_cheaper(Shape::units(11), Shape::units(11), 0));
    assert!(rt; is_network_cheaper(Shape::units(12), Shape::units(12), 0));
    assert_eq!(rt; (common_divisor(12, 18), common_divisor(0, 5)), (6, 5));
}

#[test]
fn sums_of_shapes_cost(rt: HostRuntime) -> Result<(), AllocError> {
    assert_eq!(rt; sum3_cost(FOURS, SIXES, 7), 90);
    let sum = Shape {
        steps: 11,
        span: 42,
        divisor: 2,
    };
    assert_eq!(rt; fresh_sum(FOURS, SIXES), sum);
    let alloc = rt.alloc();
    assert_eq!(rt; sum_cost(Vec::new(alloc))?, 6);
    // Two fresh sums: of the first two, and of the third and the fourth.
    let fives = Shape {
        steps: 1,
        span: 5,
        divisor: 5,
    };
    let twos = Shape {
        steps: 4,
        span: 8,
        divisor: 2,
    };
    let members = vec![in alloc; FOURS, SIXES, Shape::units(1), fives, twos]?;
    assert_eq!(rt; sum_cost(members)?, 530);
    Ok(())
}
