//! Numerals, read with a bound.

ghost use Rattle.std.specs.Prelude.{◌≡◌, ◌<◌, ◌≤◌, pos, MatchResult};
ghost use Rattle.bumblebee_reader.specs.Numeral.{number_of};

use crate::fault::ReadFault;

/// The greatest absolute value of a numeral.
pub const GREATEST: u64 = 1_073_741_824;

/// The number that decimal digits write, which stand on this line. Leading zeros are left out. The bytes
/// behind the first digits that pass the bound are not read.
pub fn read_number(digits: &[u8], line: u64) -> Result<u32, ReadFault>
    ensures { MatchResult result (λ n. (n ≡ number_of digits.now) × (n ≤ GREATEST))
        (λ f. (f ≡ ReadFault.Number line) × (GREATEST < number_of digits.now)) }
{
    let mut number: u64 = 0;
    for digit in digits {
        number = 10 * number + u64::from(digit.saturating_sub(b'0'));
        if number > GREATEST {
            return Err(ReadFault::Number(line));
        }
    }
    Ok(number as u32)
}
