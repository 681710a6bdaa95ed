//! The occurrences of a core that is split go on to its longest part.

ghost use Rattle.std.specs.Prelude.{◌≡◌, ◌+◌, ◌^◌, ◌<◌, ◌≤◌, ◌⊎◌, ◌↔◌, ℕ, [], length, IfOk};
ghost use Rattle.std.specs.Prelude.{OnOk, IsTrue, Contains};
ghost use Rattle.std.specs.List.Sorted.{IsStrictlyIncreasing};
ghost use Rattle.core_occurrences.specs.Lists.{Occurs, cores_at};
ghost use Rattle.fixpoint_queue.specs.Handed.{IsRest, IsHanded, Holds};

use bee_list::Sequence;
use core_forms::variables;
use core_occurrences::Occurrences;
use std::alloc::{AllocError, Global};
use step_kernel::State;

/// Where a core that is split goes on: its longest part.
#[derive(Drop)]
pub struct Rest {
    /// The part's place among the parts; their number where none is long.
    pub place: usize,
    /// The variables of the part that come to those of the core.
    pub come: Vec<u32>,
}

/// A part with so few variables is put at each of them.
const SHORT: usize = 16;

/// So many variables of a part may be none of the core.
const FEW: usize = 64;

/// The place of the longest list, or the end where all are short.
fn longest(lists: &[Sequence<u32>]) -> usize
    ensures { result ≤ length lists.now }
{
    let mut place = lists.len();
    let mut most = SHORT;
    for k in 0..lists.len() {
        let count = lists[k].len();
        if count > most {
            most = count;
            place = k;
        }
    }
    place
}

/// The first place from one on at which an ascending number is no less than another, or the end.
fn first_from(numbers: &[u32], from: usize, least: u32) -> usize
    ensures { from ≤ result }
{
    let mut place = from;
    while place < numbers.len() && numbers[place] < least {
        place += 1;
    }
    place
}

/// Whether a number stands at a place.
fn stands_at(numbers: &[u32], place: usize, number: u32) -> bool
    ensures { IsTrue result → Contains numbers.now number }
{
    place < numbers.len() && numbers[place] == number
}

/// Puts a variable behind others, unless it stands at a place among the known ones.
fn put_other(come: &mut Vec<u32>, known: &[u32], place: usize, var: u32) -> Result<(), AllocError>
    ensures from { OnOk result ((v : ℕ) → Contains come.new.items v → Contains come.old.items v ⊎ (v ≡ var)) }
    ensures keeps { OnOk result ((v : ℕ) → Contains come.old.items v → Contains come.new.items v) }
    ensures has { OnOk result (Contains come.new.items var ⊎ Contains known.now var) }
{
    if stands_at(known, place, var) {
        return Ok(());
    }
    come.push(var)?;
    Ok(())
}

/// The listed variables that aren't among others, all in ascending order.
fn others(alloc: Global, vars: &[u32], known: &[u32]) -> Result<Vec<u32>, AllocError>
    ensures from { IfOk result (λ come. (v : ℕ) → Contains come.items v → Contains vars.now v) }
    ensures all { IfOk result
        (λ come. (v : ℕ) → Contains vars.now v → Contains come.items v ⊎ Contains known.now v) }
{
    let mut come = Vec::new(alloc);
    let mut place = 0;
    for var in vars {
        place = first_from(known, place, *var);
        put_other(&mut come, known, place, *var)?;
    }
    Ok(come)
}

/// The longest of some lists of variables, by its place, and which of its variables a pending core hasn't; the end,
/// and no variable, where that isn't worth it.
pub fn rest_of(
    alloc: Global,
    state: &State,
    id: u64,
    lists: &[Sequence<u32>],
) -> Result<Rest, AllocError>
    ensures { IfOk result (λ rest. IsRest state.now id lists.now rest.place rest.come.items) }
{
    let place = longest(lists);
    if place < lists.len() {
        if let Some(core) = state.core(id) {
            let known = variables(alloc, core)?;
            let come = others(alloc, lists[place].as_slice(), known.as_slice())?;
            if come.len() <= FEW {
                return Ok(Rest { place, come });
            }
        }
    }
    Ok(Rest {
        place: lists.len(),
        come: Vec::new(alloc),
    })
}

/// Whether variables stand in ascending order, each once.
fn are_increasing(vars: &[u32]) -> bool
    ensures { IsTrue result ↔ IsStrictlyIncreasing vars.now }
{
    for i in 1..vars.len() {
        if vars[i - 1] >= vars[i] {
            return false;
        }
    }
    true
}

/// Whether variables occur in no core.
pub fn are_bare(occurs: &Occurrences, vars: &[u32]) -> bool
    requires { (v : ℕ) → Contains vars.now v → (1 ≤ v) × (v ≤ length occurs.now.lists) }
    ensures { IsTrue result ↔ ((v : ℕ) → Contains vars.now v → cores_at occurs.now v ≡ []) }
{
    for var in vars {
        if !occurs.is_bare(*var) {
            return false;
        }
    }
    true
}

/// Hands the occurrences of a core that has gone on to another one, which has none, and adds an occurrence of each
/// variable that comes, in constant time beside these.
pub fn hand_over(occurs: &mut Occurrences, gone: u32, held: u32, come: &[u32])
    requires gone { (1 ≤ gone) × (gone < held) }
    requires ids { held ≤ occurs.old.ids }
    requires vars { (v : ℕ) → Contains come.now v → (1 ≤ v) × (v ≤ length occurs.old.lists) }
    requires increasing { IsStrictlyIncreasing come.now }
    requires bare { (v : ℕ) → Contains come.now v → cores_at occurs.old v ≡ [] }
    requires room { length come.now ≤ occurs.old.room }
    requires absent { (v : ℕ) → ¬ Occurs occurs.old v held }
    ensures handed { IsHanded occurs.old occurs.new gone held }
    ensures room { occurs.old.room ≤ occurs.new.room + length come.now }
    ensures holds { (v : ℕ) → 1 ≤ v → Contains come.now v ⊎ Occurs occurs.old v gone
        → Occurs occurs.new v held }
{
    occurs.exchange(gone, held);
    occurs.add(held, come);
}

/// Hands the occurrences of a core that has gone on to the one at a place behind others, with those variables that
/// come; or takes the occurrences away, and tells 0, where there is no such place.
pub fn hand_on(
    occurs: &mut Occurrences,
    gone: u32,
    before: u32,
    count: usize,
    place: usize,
    come: &[u32],
) -> u32
    requires gone { (1 ≤ gone) × (gone ≤ before) }
    requires ids { before + count ≤ occurs.old.ids }
    requires small { before + count < 2 ^ 31 }
    requires vars { (v : ℕ) → Contains come.now v → (1 ≤ v) × (v ≤ length occurs.old.lists) }
    requires room { length come.now ≤ occurs.old.room }
    requires absent { (v id : ℕ) → before < id → ¬ Occurs occurs.old v id }
    ensures handed { IsHanded occurs.old occurs.new gone result }
    ensures room { occurs.old.room ≤ occurs.new.room + length come.now }
    ensures holds { Holds occurs.old occurs.new gone before place count come.now result }
{
    if place < count && are_increasing(come) && are_bare(occurs, come) {
        let held = before + place as u32 + 1;
        hand_over(occurs, gone, held, come);
        held
    } else {
        occurs.remove(gone);
        0
    }
}
