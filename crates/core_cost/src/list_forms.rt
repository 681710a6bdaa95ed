//! The forms over lists of atoms.

ghost use Rattle.std.specs.Prelude.{◌≡◌};
ghost use Rattle.core_cost.specs.ListForms.{cost_of_clause, cost_of_conj, cost_of_comp, cost_of_parity, cost_of_amo};

/// A clause: its literals.
pub fn clause_cost(members: usize) -> u128
    ensures { result ≡ cost_of_clause members }
{
    members as u128
}

/// An atom that is true exactly where all members are.
pub fn conj_cost(members: usize) -> u128
    ensures { result ≡ cost_of_conj members }
{
    3 * members as u128 + 1
}

/// A comparator: the disjunction and the conjunction of two atoms.
pub fn comp_cost() -> u128
    ensures { result ≡ cost_of_comp }
{
    14
}

/// Whether an odd or an even number of members is true. From four members on, a fresh variable
/// stands for the parity of two of them.
pub fn parity_cost(members: usize) -> u128
    ensures { result ≡ cost_of_parity members }
{
    match members {
        0 => 0,
        1 => 1,
        2 => 4,
        _ => 12 + 13 * (members as u128 - 3),
    }
}

/// At most one member is true. From five members on, a fresh variable stands for three of them.
pub fn amo_cost(members: usize) -> u128
    ensures { result ≡ cost_of_amo members }
{
    match members {
        0 | 1 => 0,
        2 => 2,
        _ if members % 2 == 0 => 12 + 13 * (members as u128 / 2 - 2),
        _ => 6 + 13 * (members as u128 / 2 - 1),
    }
}
