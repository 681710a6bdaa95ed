//! A shelf over memory, for tests: it gives small pieces and fails at chosen calls.

ghost use Rattle.std.specs.Prelude.{◌≡◌, ◌≢◌, ℕ, ◌≤◌, ◌<◌, ◌↔◌, List, [], ◌++◌, map};
ghost use Rattle.std.specs.Prelude.{reverse, take, drop, length, vec_len, IfOk, OnErr, IfSome, MatchOption};
ghost use Rattle.bee_outside.specs.Faults.{counted};
ghost use Rattle.bee_outside.specs.Bytes.{IsTold, in_front};
ghost use Rattle.bee_outside.specs.MemShelf.{given_file, fresh_shelf, left_under, next_answer, next_slice, after_next};
ghost use Rattle.bee_outside.specs.MemFiles.{kept_file, GivesNothing, GivesFront};

use crate::failed::Failed;
use crate::names::place_of;
use crate::shelf::Shelf;
use std::marker::Model;

/// Texts in memory. It gives at most so many bytes a call as its step says, and the calls whose numbers
/// are listed fail. Calls are counted from 1; every call from number 18,446,744,073,709,551,615 on has
/// that number. A name that no file has fails. It takes no memory.
#[derive(Drop)]
pub struct MemShelf {
    // The bytes left of each file, in reverse order: the next one stands last.
    files: Vec<(String, Vec<u8>)>,
    step: usize,
    failing: Vec<u64>,
    calls: u64,
    faults: u64,
}

impl Model for MemShelf {
    ghost use Rattle.std.specs.Prelude.{map, ◌≤◌};
    ghost use Rattle.bee_outside.specs.MemShelf.{MemShelfState};
    ghost use Rattle.bee_outside.specs.MemFiles.{kept_file};

    ghost Value = { MemShelfState };

    ghost view = { λ s. record {
      files = map kept_file s.files.items;
      step = s.step;
      failing = s.failing.items;
      calls = s.calls;
      faults = s.faults;
    } };

    ghost invariant = { λ s. 1 ≤ s.step };
}

impl MemShelf {
    /// The shelf with these files: names and their bytes. Where a name stands twice, the first counts.
    pub fn with(mut files: Vec<(String, Vec<u8>)>, step: usize, failing: Vec<u64>) -> MemShelf
        requires { 1 ≤ step }
        ensures { result ≡ fresh_shelf files.items step failing.items }
    {
        reverse_texts(files.as_mut_slice());
        MemShelf {
            files,
            step,
            failing,
            calls: 0,
            faults: 0,
        }
    }
}

impl Shelf for MemShelf {
    ghost left = { λ s name. left_under s.files name };

    ghost faults = { λ s _. s.faults };

    fn next(&mut self, name: &str, into: &mut [u8]) -> Result<usize, Failed>
        // What it answers, and what it leaves.
        ensures answer { result ≡ next_answer self.old name.now (length into.old) }
        ensures slice { into.new ≡ next_slice self.old name.now into.old }
        ensures after { self.new ≡ after_next self.old name.now (length into.old) }

        // What every shelf keeps.
        ensures no_count_falls { (other : List ℕ) → self.old.faults ≤ self.new.faults }
        ensures others_stay { (other : List ℕ) → other ≢ name.now →
            left_under self.new.files other ≡ left_under self.old.files other }
        ensures told_stays { IsTold (left_under self.new.files name.now)
            ↔ IsTold (left_under self.old.files name.now) }
        ensures fits { IfOk result (λ k. k ≤ length into.old) }
        ensures moves { IfOk result (λ k. left_under self.old.files name.now
            ≡ in_front (take k into.new) (left_under self.new.files name.now)) }
        ensures end { IfOk result (λ k. IfSome (left_under self.old.files name.now) (λ bytes.
            0 < length into.old → (k ≡ 0) ↔ (bytes ≡ []))) }
        ensures rest_stays { IfOk result (λ k. IsTold (left_under self.old.files name.now) →
            drop k into.new ≡ drop k into.old) }
        ensures fault_takes_nothing { OnErr result
            (left_under self.new.files name.now ≡ left_under self.old.files name.now) }
        ensures counts_faults { self.new.faults ≡ counted result self.old.faults }
        ensures counts_nothing_else { IfOk result (λ _. (other : List ℕ) →
            self.new.faults ≡ self.old.faults) }
    {
        self.calls = self.calls.saturating_add(1);
        if !self.failing.contains(&self.calls) {
            if let Some(size) = give(self.files.as_mut_slice(), self.step, name, into) {
                return Ok(size);
            }
        }
        self.faults = self.faults.saturating_add(1);
        Err(Failed)
    }
}

/// Gives the next bytes of the first file with the name: so many as the slice has room for, at most the
/// step, and no more than are left. Where no file has the name, nothing happens.
fn give(files: &mut [(String, Vec<u8>)], step: usize, name: &str, into: &mut [u8]) -> Option<usize>
    ensures gives { MatchOption result
        (GivesNothing (map kept_file files.old) name.now (map kept_file files.new) into.old into.new)
        (GivesFront (map kept_file files.old) step name.now (map kept_file files.new) into.old into.new) }
{
    let place = place_of(files, name)?;
    let text = &mut files[place].1;
    let size = into.len().min(step).min(text.len());
    take_last(text, &mut into[..size]);
    Some(size)
}

/// Puts each text into reverse order.
fn reverse_texts(files: &mut [(String, Vec<u8>)])
    ensures { map kept_file files.new ≡ map given_file files.old }
{
    for file in files.iter_mut() {
        file.1.as_mut_slice().reverse();
    }
}

/// Moves the last bytes of a text in reverse order into a slice: the first ones that are left.
fn take_last(text: &mut Vec<u8>, into: &mut [u8])
    requires { length into.old ≤ vec_len text.old }
    ensures moved { reverse text.old.items ≡ into.new ++ reverse text.new.items }
{
    let left = text.len() - into.len();
    into.copy_from_slice(&text.as_slice()[left..]);
    into.reverse();
    text.truncate(left);
}
