//! The greatest common divisor.

ghost use Rattle.std.specs.Prelude.{◌≡◌};
ghost use Rattle.std.specs.Int.{IsGcd};
ghost use Rattle.core_cost.specs.Divisor.{common_divisor_of};

/// The greatest common divisor of two numbers, by Euclid's algorithm; with 0 it is the other number.
pub fn common_divisor(first: u128, second: u128) -> u128
    ensures value { result ≡ common_divisor_of first second }
    ensures greatest { IsGcd first second result }
{
    let mut divisor = first;
    let mut rest = second;
    while rest != 0 {
        let next = divisor % rest;
        divisor = rest;
        rest = next;
    }
    divisor
}
