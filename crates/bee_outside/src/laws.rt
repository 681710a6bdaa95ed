//! Laws about several calls in a row, for callers that make them.

ghost use Rattle.std.specs.Prelude.{◌≡◌, ℕ, ◌≤◌, List, [], ◌++◌, Option, IfSome};
ghost use Rattle.bee_outside.specs.Faults.{Rose, next_count};
ghost use Rattle.bee_outside.specs.Bytes.{IsTold, in_front, grown, NothingLeft};

/// A count that doesn't fall, and that rose in one of several calls in a row, rose over all of them; and a
/// count rose where the next one follows it.
pub fn rise_law()
    ensures earlier_calls { (a b c : ℕ) → a ≤ b → Rose b c → Rose a c }
    ensures later_calls { (a b c : ℕ) → a ≤ b → Rose a b → b ≤ c → Rose a c }
    ensures next { (n : ℕ) → Rose n (next_count n) }
{}

/// Pieces that are taken one after another are one piece, and so are pieces that are added.
pub fn pieces_law()
    ensures in_front { (p q : List ℕ) (left : Option (List ℕ)) →
        in_front (p ++ q) left ≡ in_front p (in_front q left) }
    ensures behind { (taken : Option (List ℕ)) (p q : List ℕ) →
        grown (grown taken p) q ≡ grown taken (p ++ q) }
{}

/// A text that was read to its end is all that was told, and a reading where nothing was left gives
/// nothing.
pub fn end_law()
    ensures whole { (before after : Option (List ℕ)) (text : List ℕ) →
        before ≡ in_front text after → NothingLeft after → IfSome before (λ bytes. bytes ≡ text) }
    ensures nothing { (before after : Option (List ℕ)) (text : List ℕ) →
        before ≡ in_front text after → IsTold before → NothingLeft before → text ≡ [] }
{}
