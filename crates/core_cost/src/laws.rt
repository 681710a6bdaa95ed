//! Laws of costs, for proofs of crates above. Each function does nothing; its contract is the law.

ghost use Rattle.std.specs.Prelude.{◌≡◌, ℕ, ◌+◌, ◌*◌, ◌^◌, ◌<◌, ◌≤◌, List, [], ◌∷◌};
ghost use Rattle.std.specs.Prelude.{◌++◌, length, IsTrue};
ghost use Rattle.core_cost.specs.declared.shape.Shape.{Shape};
ghost use Rattle.core_cost.specs.ListForms.{cost_of_parity, cost_of_amo};
ghost use Rattle.core_cost.specs.Comparisons.{cost_of_ladder, cost_of_leq, cost_of_eq, cost_of_lex};
ghost use Rattle.core_cost.specs.Arithmetic.{cost_of_max, cost_of_all_diff, cost_of_prod, cost_of_div_mod};
ghost use Rattle.core_cost.specs.Network.{half_up, half_down, has_network, cost_of_table, cost_of_unit_sum};
ghost use Rattle.core_cost.specs.Network.{cost_of_network, cost_of_sum3_over};
ghost use Rattle.core_cost.specs.Counts.{cost_of_half, cost_of_count};
ghost use Rattle.core_cost.specs.Sums.{unit_steps, constant, cost_of_sum3, fresh_sum_of, cost_of_sum, spans_of};
ghost use Rattle.core_cost.specs.Relations.{AreAtMost, PairsAreAtMost, AreShapes, AreWithin, IsShape, IsWithin};
ghost use Rattle.core_cost.specs.Relations.{FitsInMemory, AllFitInMemory, PairsFitInMemory};

/// Costs grow with numbers of members.
pub fn members_law()
    ensures parity { (k l : ℕ) → k ≤ l → cost_of_parity k ≤ cost_of_parity l }
    ensures amo { (k l : ℕ) → k ≤ l → cost_of_amo k ≤ cost_of_amo l }
    ensures count { (k c l d : ℕ) → k ≤ l → c ≤ d → cost_of_count k c ≤ cost_of_count l d }
{}

/// At most one of many costs at most 13/2 for each member.
pub fn amo_law()
    ensures { (k : ℕ) → 2 * cost_of_amo k ≤ 13 * k }
{}

/// Costs grow with numbers of steps; where there are lists, also with longer lists.
pub fn steps_law()
    ensures ladder { (n m : ℕ) → n ≤ m → cost_of_ladder n ≤ cost_of_ladder m }
    ensures leq { (n m p q : ℕ) → n ≤ p → m ≤ q → cost_of_leq n m ≤ cost_of_leq p q }
    ensures equal { (n m p q : ℕ) → n ≤ p → m ≤ q → cost_of_eq n m ≤ cost_of_eq p q }
    ensures lex { (ps qs : List (ℕ × ℕ)) → PairsAreAtMost ps qs → cost_of_lex ps ≤ cost_of_lex qs }
    ensures max { (ns ms : List ℕ) (c d : ℕ) → AreAtMost ns ms → c ≤ d
        → cost_of_max ns c ≤ cost_of_max ms d }
    ensures all_diff { (ns ms : List ℕ) → AreAtMost ns ms → cost_of_all_diff ns ≤ cost_of_all_diff ms }
    ensures prod { (n m c p q d : ℕ) → n ≤ p → m ≤ q → c ≤ d
        → cost_of_prod n m c ≤ cost_of_prod p q d }
    ensures div_mod { (n m c e p q d f : ℕ) → n ≤ p → m ≤ q → c ≤ d → e ≤ f
        → cost_of_div_mod n m c e ≤ cost_of_div_mod p q d f }
{}

/// Costs of sums grow with the shapes: with the steps, the spans and fewer common divisors.
pub fn shapes_law()
    ensures over { (n m c N M p q d P Q : ℕ) → n ≤ N → m ≤ M → n ≤ p → m ≤ q → c ≤ d → N ≤ P
        → M ≤ Q
        → cost_of_sum3_over n m c N M ≤ cost_of_sum3_over p q d P Q }
    ensures sum3 { (a b p q : Shape) (c d : ℕ) → IsShape a → IsShape b → IsWithin a p → IsWithin b q
        → c ≤ d
        → cost_of_sum3 a b c ≤ cost_of_sum3 p q d }
    ensures sum { (members others : List Shape) → AreWithin members others
        → cost_of_sum members ≤ cost_of_sum others }
{}

/// The cost of a sum of unit steps is that of a sum with as many atoms as steps. Where a side has no
/// step, or both have one, its table costs at most any network of sides that are no shorter.
pub fn network_law()
    ensures unit_sum { (n m : ℕ) → cost_of_unit_sum n m ≡ cost_of_sum3_over n m (n + m) n m }
    ensures first_side { (n m c : ℕ) → IsTrue (has_network n m) → 6 * (n + 1) ≤ cost_of_network n m c }
    ensures second_side { (n m c : ℕ) → IsTrue (has_network n m) → 6 * (m + 1) ≤ cost_of_network n m c }
    ensures one_step { (n m c : ℕ) → IsTrue (has_network n m) → 24 ≤ cost_of_network n m c }
{}

/// What fits in memory costs less than 2^128, so that its cost is exact.
pub fn fits_law()
    ensures parity { (k : ℕ) → FitsInMemory k → cost_of_parity k < 2 ^ 128 }
    ensures amo { (k : ℕ) → FitsInMemory k → cost_of_amo k < 2 ^ 128 }
    ensures ladder { (n : ℕ) → FitsInMemory n → cost_of_ladder n < 2 ^ 128 }
    ensures leq { (n m : ℕ) → FitsInMemory n → FitsInMemory m → cost_of_leq n m < 2 ^ 128 }
    ensures equal { (n m : ℕ) → FitsInMemory n → FitsInMemory m → cost_of_eq n m < 2 ^ 128 }
    ensures lex { (ps : List (ℕ × ℕ)) → PairsFitInMemory ps → FitsInMemory (length ps)
        → cost_of_lex ps < 2 ^ 128 }
    ensures max { (ns : List ℕ) (c : ℕ) → AllFitInMemory ns → FitsInMemory (length ns) → FitsInMemory c
        → cost_of_max ns c < 2 ^ 128 }
    ensures all_diff { (ns : List ℕ) → AllFitInMemory ns → FitsInMemory (length ns)
        → cost_of_all_diff ns < 2 ^ 128 }
    ensures prod { (n m c : ℕ) → FitsInMemory n → FitsInMemory m → FitsInMemory c
        → cost_of_prod n m c < 2 ^ 128 }
    ensures div_mod { (n m q r : ℕ) → FitsInMemory n → FitsInMemory m → FitsInMemory q → FitsInMemory r
        → cost_of_div_mod n m q r < 2 ^ 128 }
    ensures table { (n m : ℕ) → n < 2 ^ 62 → m < 2 ^ 62 → cost_of_table n m < 2 ^ 128 }
    ensures sum3 { (n m c N M : ℕ) → FitsInMemory n → FitsInMemory m → FitsInMemory c
        → cost_of_sum3_over n m c N M < 2 ^ 128 }
    ensures count { (k c : ℕ) → FitsInMemory k → FitsInMemory c → cost_of_count k c < 2 ^ 128 }
    ensures sum { (members : List Shape) → AreShapes members → FitsInMemory (length members)
        → spans_of members < 2 ^ 108 → cost_of_sum members < 2 ^ 128 }
{}

/// Of a sum's members each two are joined in a fresh sum before the first fresh sum is joined again, so
/// that 2^r members take r rounds, in each of which the spans together are those of the members.
pub fn sum_bound_law()
    ensures { (r : ℕ) (members : List Shape) → AreShapes members → spans_of members < 2 ^ 128
        → length members ≤ 2 ^ r
        → cost_of_sum members ≤ 2 ^ 14 * ((r + 1) * spans_of members + length members + 1) }
{}

/// The costs of longer counts and sums by those of their parts.
pub fn parts_law()
    ensures few { (k c : ℕ) → k < 2 → cost_of_count k c ≡ cost_of_sum3 (unit_steps k) constant c }
    ensures halves { (k c : ℕ) → 2 ≤ k → cost_of_count k c
        ≡ cost_of_half (half_up k) (cost_of_count (half_up k) (half_up k))
        + cost_of_half (half_down k) (cost_of_count (half_down k) (half_down k))
        + cost_of_sum3 (unit_steps (half_up k)) (unit_steps (half_down k)) c }
    ensures none { cost_of_sum [] ≡ cost_of_sum3 constant constant 0 }
    ensures one { (a : Shape) → cost_of_sum (a ∷ []) ≡ cost_of_sum3 a constant 0 }
    ensures two { (a b : Shape) → cost_of_sum (a ∷ b ∷ []) ≡ cost_of_sum3 a constant b.steps }
    ensures three { (a b c : Shape) → cost_of_sum (a ∷ b ∷ c ∷ []) ≡ cost_of_sum3 a b c.steps }
    ensures more { (a b : Shape) (rest : List Shape) → 2 ≤ length rest → cost_of_sum (a ∷ b ∷ rest)
        ≡ (fresh_sum_of a b).steps + cost_of_sum3 a b (fresh_sum_of a b).steps
        + cost_of_sum (rest ++ fresh_sum_of a b ∷ []) }
{}

/// What a fresh sum's shape keeps, and the shapes of steps of weight 1.
pub fn fresh_law()
    ensures shape { (a b : Shape) → IsShape a → IsShape b → IsShape (fresh_sum_of a b) }
    ensures within { (a b p q : Shape) → IsWithin a p → IsWithin b q
        → IsWithin (fresh_sum_of a b) (fresh_sum_of p q) }
    ensures units { (n : ℕ) → IsShape (unit_steps n) }
    ensures unit_sum { (n m c : ℕ) → cost_of_sum3 (unit_steps n) (unit_steps m) c ≡ cost_of_sum3_over n m c n m }
{}
