//! The lines that tell the numbers of declared names.

ghost use Rattle.std.specs.Prelude.{◌≡◌, ◌≢◌, ◌++◌, true, ℕ, ℤ, List, OnOk, MatchOption};
ghost use Rattle.name_map.specs.ValueLines.{number_word, value_line, IsTellable};

use bee_text::{push_bytes, push_signed, read_signed};
use std::alloc::AllocError;

/// Appends the number of a name.
fn push_number_word(out: &mut Vec<u8>, is_boolean: bool, number: i128) -> Result<(), AllocError>
    ensures { OnOk result (out.new.items ≡ out.old.items ++ number_word is_boolean number) }
{
    if !is_boolean {
        return push_signed(out, number);
    }
    if number == 0 {
        push_bytes(out, b"false")
    } else {
        push_bytes(out, b"true")
    }
}

/// Appends the line of a name and its number, without the line feed behind it.
pub fn push_value_line(
    out: &mut Vec<u8>,
    name: &[u8],
    is_boolean: bool,
    number: i128,
) -> Result<(), AllocError>
    ensures { OnOk result (out.new.items ≡ out.old.items ++ value_line name.now is_boolean number) }
{
    push_bytes(out, name)?;
    push_bytes(out, b" = ")?;
    push_number_word(out, is_boolean, number)
}

/// The truth value that a word tells, as 0 or 1.
fn read_truth(word: &[u8]) -> Option<i128>
    ensures { MatchOption result ((z : ℤ) → word.now ≡ number_word true z → ⊥)
        (λ z. IsTellable true 0 z × (word.now ≡ number_word true z)) }
{
    if word == b"true".as_slice() {
        return Some(1);
    }
    if word == b"false".as_slice() {
        return Some(0);
    }
    None
}

/// The number that a word tells.
fn read_number_word(word: &[u8], is_boolean: bool, most: u128) -> Option<i128>
    ensures { MatchOption result ((z : ℤ) → IsTellable is_boolean most z → word.now ≡ number_word is_boolean z
        → ⊥)
        (λ z. IsTellable is_boolean most z × (word.now ≡ number_word is_boolean z)) }
{
    if is_boolean {
        read_truth(word)
    } else {
        read_signed(word, most)
    }
}

/// What stands behind a front of a text, if it has that front.
fn behind<'a>(text: &'a [u8], front: &[u8]) -> Option<&'a [u8]>
    ensures { MatchOption result ((rest : List ℕ) → text.now ≢ front.now ++ rest)
        (λ rest. text.now ≡ front.now ++ rest.now) }
{
    text.strip_prefix(front)
}

/// The number that the line of a name tells: 0 or 1 of a Boolean, and of an integer one that is at most `most` in
/// absolute value.
pub fn read_value_line(line: &[u8], name: &[u8], is_boolean: bool, most: u128) -> Option<i128>
    ensures { MatchOption result
        ((z : ℤ) → IsTellable is_boolean most z → line.now ≡ value_line name.now is_boolean z → ⊥)
        (λ z. IsTellable is_boolean most z × (line.now ≡ value_line name.now is_boolean z)) }
{
    let told = behind(line, name)?;
    match behind(told, b" = ") {
        Some(word) => read_number_word(word, is_boolean, most),
        None => None,
    }
}
