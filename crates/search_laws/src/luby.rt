//! When a search begins anew. A search that took a bad turn may need far longer than one that begins again, and
//! nobody knows beforehand how long to wait: stretches whose lengths follow Luby's sequence are, up to a constant and
//! a logarithm, as good as any choice made with full knowledge (Luby, Sinclair, Zuckerman 1993).

ghost use Rattle.std.specs.Prelude.{◌≡◌, ◌+◌, ◌-◌, ◌*◌, ◌^◌, ◌<◌, ◌≤◌};
ghost use Rattle.search_laws.specs.Luby.{binary_digits, luby, stretch_length};

/// How many clauses the shortest stretch learns.
const STRETCH: u64 = 64;

/// The greatest power of 2 that is not above a number.
fn highest_power(n: u64) -> u64
    requires { 1 ≤ n }
    ensures power { result ≡ 2 ^ (binary_digits n - 1) }
    ensures some { 1 ≤ result }
    ensures low { result ≤ n }
    ensures high { n < 2 * result }
{
    1 << (63 - n.leading_zeros())
}

/// Term k of Luby's sequence, 1, 1, 2, 1, 1, 2, 4, 1 and so on. It takes a step for each digit of k at most.
fn luby(k: u64) -> u64
    requires { 1 ≤ k }
    ensures term { result ≡ luby k }
    ensures most { 2 * result ≤ k + 1 }
{
    let mut number = k;
    loop {
        let power = highest_power(number);
        if number - power == power - 1 {
            return power;
        }
        number -= power - 1;
    }
}

/// How many clauses stretch k of a search learns before the search begins anew, k from 1.
pub fn stretch_length(k: u64) -> u64
    requires low { 1 ≤ k }
    requires high { k ≤ 2 ^ 58 }
    ensures { result ≡ stretch_length k }
{
    STRETCH * luby(k)
}
