//! Numbers among the words.

ghost use Rattle.std.specs.Prelude.{◌≡◌, option_map};
ghost use Rattle.command_words.specs.Numeral.{number_within};
ghost use Rattle.command_words.specs.Request.{budget_of, size_of, bound_of};

/// The budget where none is given.
const USUAL_BUDGET: u64 = 1_000_000;

/// The greatest budget.
const GREATEST_BUDGET: u64 = 9_223_372_036_854_775_807;

/// The number that a word says in digits, where it is in the limits; leading zeros are allowed, and a sign
/// is not.
fn number_within(least: u64, greatest: u64, word: &str) -> Option<u64>
    ensures { result ≡ number_within least greatest word.now }
{
    if word.starts_with('+') {
        return None;
    }
    let number = match word.parse::<u64>() {
        Ok(number) => number,
        Err(_) => return None,
    };
    if least <= number && number <= greatest {
        Some(number)
    } else {
        None
    }
}

/// The budget that is given, or the usual one; none where the word is no budget.
pub fn budget(word: Option<&str>) -> Option<u64>
    ensures { result ≡ budget_of (option_map (λ s. s.now) word.entry) }
{
    match word {
        Some(text) => number_within(1, GREATEST_BUDGET, text),
        None => Some(USUAL_BUDGET),
    }
}

/// The size of a board that a word says.
pub fn size(word: &str) -> Option<u64>
    ensures { result ≡ size_of word.now }
{
    number_within(4, 24, word)
}

/// The number that a word says in digits, or in a minus sign and digits, where it fits 64 bits; leading zeros are
/// allowed, and a plus sign is not.
pub fn bound(word: &str) -> Option<i64>
    ensures { result ≡ bound_of word.now }
{
    if word.starts_with('+') {
        return None;
    }
    match word.parse::<i64>() {
        Ok(number) => Some(number),
        Err(_) => None,
    }
}
