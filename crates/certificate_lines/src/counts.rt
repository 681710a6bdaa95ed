//! Numbers of 64 bits, and how many clauses may be learned.

ghost use Rattle.std.specs.Prelude.{◌≡◌, ◌<◌, ◌^◌, ℕ, IfSome, Some};
ghost use Rattle.std.specs.Fmt.{decimal};
ghost use Rattle.certificate_lines.specs.Counts.{is_count};

use bee_text::read_number;

/// Whether so many clauses may be learned.
pub fn is_count(n: u64) -> bool
    ensures { result ≡ is_count n }
{
    0 < n && n < (1 << 63)
}

/// The number of 64 bits that a word spells.
pub fn read_count(word: &[u8]) -> Option<u64>
    ensures read { IfSome result (λ n. (n < 2 ^ 64) × (word.now ≡ decimal n)) }
    ensures complete { (n : ℕ) → n < 2 ^ 64 → word.now ≡ decimal n → result ≡ Some n }
{
    let n = read_number(word, u128::from(u64::MAX))?;
    Some(n as u64)
}

/// The number of learned clauses, from 1 and below 2 ^ 63, that a word spells.
pub fn read_spent(word: &[u8]) -> Option<u64>
    ensures read { IfSome result (λ n. (word.now ≡ decimal n) × (0 < n) × (n < 2 ^ 63)) }
    ensures complete { (n : ℕ) → 0 < n → n < 2 ^ 63 → word.now ≡ decimal n → result ≡ Some n }
{
    let n = read_count(word)?;
    if is_count(n) { Some(n) } else { None }
}
