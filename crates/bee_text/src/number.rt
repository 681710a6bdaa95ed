//! Decimal numbers read from a text.

ghost use Rattle.std.specs.Prelude.{◌≡◌, ◌↔◌, ℕ, ◌≤◌, ◌∷◌, drop, ℤ, IsTrue, Some, IfSome};
ghost use Rattle.std.specs.Prelude.{unsigned_abs, FitsSigned};
ghost use Rattle.std.specs.Int.{w128};
ghost use Rattle.std.specs.Fmt.{decimal, signed_decimal};
ghost use Rattle.bee_text.specs.Digits.{with_digit, digits_after, leads_well};

/// The number of which the bytes are the decimal, if it is at most `most`: digits with no sign, of
/// which the first is zero for the number 0 alone. It looks at no byte past the first that is wrong.
pub fn read_number(bytes: &[u8], most: u128) -> Option<u128>
    ensures read { IfSome result (λ n. (n ≤ most) × (bytes.now ≡ decimal n)) }
    ensures complete { (n : ℕ) → n ≤ most → bytes.now ≡ decimal n → result ≡ Some n }
{
    if leads_well(bytes) {
        read_digits(bytes, most)
    } else {
        None
    }
}

/// The number of which the bytes are the signed decimal, if its absolute value is at most `most`: a
/// minus sign before the digits of a negative number, none before those of another.
pub fn read_signed(bytes: &[u8], most: u128) -> Option<i128>
    ensures read { IfSome result (λ z. (unsigned_abs z ≤ most) × (bytes.now ≡ signed_decimal z)) }
    ensures complete { (z : ℤ) → FitsSigned w128 z → unsigned_abs z ≤ most
        → bytes.now ≡ signed_decimal z → result ≡ Some z }
{
    if has_minus(bytes) {
        return read_negative(&bytes[1..], most);
    }
    let n = read_number(bytes, most.min(i128::MAX as u128))?;
    Some(n as i128)
}

// Whether a text begins with a minus sign.
fn has_minus(bytes: &[u8]) -> bool
    ensures { IsTrue result ↔ (bytes.now ≡ 45 ∷ drop 1 bytes.now) }
{
    !bytes.is_empty() && bytes[0] == b'-'
}

// The negative number behind a minus sign.
fn read_negative(digits: &[u8], most: u128) -> Option<i128>
    ensures read { IfSome result (λ z. (unsigned_abs z ≤ most)
        × (45 ∷ digits.now ≡ signed_decimal z)) }
    ensures complete { (z : ℤ) → FitsSigned w128 z → unsigned_abs z ≤ most
        → 45 ∷ digits.now ≡ signed_decimal z → result ≡ Some z }
{
    let n = read_number(digits, most.min(1 << 127))?;
    let before = n.checked_sub(1)?;
    Some(-1 - before as i128)
}

// Whether a text has a byte, and begins with the digit zero only where it is that digit alone.
fn leads_well(bytes: &[u8]) -> bool
    ensures { result ≡ leads_well bytes.now }
{
    bytes.len() == 1 || (bytes.len() > 1 && bytes[0] != b'0')
}

// The number of which the bytes are digits, of which there may be none.
fn read_digits(bytes: &[u8], most: u128) -> Option<u128>
    ensures { result ≡ digits_after most 0 bytes.now }
{
    let mut value = 0;
    for byte in bytes {
        value = add_digit(value, *byte, most)?;
    }
    Some(value)
}

// The number with one digit more.
fn add_digit(value: u128, byte: u8, most: u128) -> Option<u128>
    ensures { result ≡ with_digit most value byte }
{
    if !byte.is_ascii_digit() {
        return None;
    }
    let next = value.checked_mul(10)?.checked_add(u128::from(byte - b'0'))?;
    if next <= most { Some(next) } else { None }
}
