//! Whether an assignment meets all statements but one.

ghost use Rattle.std.specs.Prelude.{◌≡◌, ◌↔◌, ◌+◌, ◌<◌, ◌||◌, IsTrue, IsNone, Some, None};
ghost use Rattle.std.specs.Prelude.{MatchOption, drop, length, if◌then◌else◌};
ghost use Rattle.model_meaning.specs.Limits.{InLimits};
ghost use Rattle.model_meaning.specs.Domains.{in_domains};
ghost use Rattle.model_meaning.specs.Solutions.{AllHold, first_broken};
ghost use Rattle.model_parts.specs.Only.{all_but};

use model_meaning::{Assignment, Model, holds};

/// The number of a statement that is neither left aside nor holds.
fn number_of_broken(aside: bool, held: bool, number: u64) -> Option<u64>
    ensures { result ≡ (if aside || held then None else Some number) }
{
    if aside || held { None } else { Some(number) }
}

/// The number of the statement at a place, where it doesn't hold and isn't the one that is left aside.
fn broken_at(model: &Model, place: usize, number: u64, a: &Assignment) -> Option<u64>
    requires limits { InLimits model.now }
    requires domains { IsTrue (in_domains model.now.decls a.now.values) }
    requires place { place < length model.now.stmts }
    ensures { MatchOption result
        (first_broken a.now.values (all_but number (drop place model.now.stmts))
        ≡ first_broken a.now.values (all_but number (drop (place + 1) model.now.stmts)))
        (λ n. first_broken a.now.values (all_but number (drop place model.now.stmts)) ≡ Some n) }
{
    let stmts = model.stmts.as_slice();
    let own = stmts[place].number;
    let held = holds(model, place, a);
    number_of_broken(own == number, held, own)
}

/// The number of the first statement that doesn't hold, the one of this number left aside.
fn first_left(model: &Model, number: u64, a: &Assignment) -> Option<u64>
    requires limits { InLimits model.now }
    requires domains { IsTrue (in_domains model.now.decls a.now.values) }
    ensures { result ≡ first_broken a.now.values (all_but number model.now.stmts) }
{
    for place in 0..model.stmts.len() {
        if let Some(broken) = broken_at(model, place, number, a) {
            return Some(broken);
        }
    }
    None
}

/// The number of the first statement that doesn't hold, the one of this number left aside. It takes no memory.
pub fn first_broken_but(model: &Model, number: u64, a: &Assignment) -> Option<u64>
    requires limits { InLimits model.now }
    requires domains { IsTrue (in_domains model.now.decls a.now.values) }
    ensures first { result ≡ first_broken a.now.values (all_but number model.now.stmts) }
    ensures none { IsNone result ↔ AllHold a.now.values (all_but number model.now.stmts) }
{
    first_left(model, number, a)
}
