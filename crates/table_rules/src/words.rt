//! A look at a long order of words over few names, which most often shows that it implies no equation.
//!
//! Such an order is split at its front again and again, and each rest is asked for its table. Each row of that table
//! first goes along the whole rest, to see whether its integers are ordered. Integers of at most one step always are;
//! then a row ends at the first pair that differs, which most often is one of the first few.

ghost use Rattle.std.specs.Prelude.{◌≡◌, ◌≤◌, true, false, Bool, not, None, Some, length, take, IfOk};
ghost use Rattle.std.specs.Prelude.{IfSome, IsTrue};
ghost use Rattle.order_ints.specs.declared.atom.Atom.{Atom};
ghost use Rattle.order_ints.specs.Truth.{Valuation, atom_truth};
ghost use Rattle.core_forms.specs.declared.form.Core.TheVariants.{Lex};
ghost use Rattle.core_forms.specs.Variables.{AreAmong};
ghost use Rattle.core_forms.specs.WellFormed.{IsWellFormed, AreSound};
ghost use Rattle.table_rules.specs.Pairs.{pairs_over, IsIn};
ghost use Rattle.table_rules.specs.Instances.{found_at};
ghost use Rattle.table_rules.specs.Words.{are_short, word_vars, which_first};
ghost use Rattle.table_rules.specs.Words.{is_the_told, is_told};
ghost use Rattle.table_rules.specs.Words.{AreEqualWhereTold, first_pairs};

use crate::pairs::pairs_over;
use crate::rows::{is_some_apart, keep_equal, row_count, write_row};
use core_forms::{Core, FewVars, Word, few_of_words};
use order_ints::{Atom, OrdInt, TruthRow, TruthValues};
use std::alloc::{AllocError, Global};

/// How many pairs at the front of an order of words are looked at alone. They are to show which word is first in some
/// row, and to have most of the names: of words that are mixed from four names 16 pairs lack one of these in one of
/// 2,500 orders, and 8 pairs in one of 25. Each further pair costs time at each rest, also where there are many names.
const FIRST_PAIRS: usize = 16;

/// Whether each integer has at most one step, so that it is ordered anyway.
fn are_short(ints: &[OrdInt]) -> bool
    ensures { result ≡ are_short ints.now }
{
    for a in ints {
        if a.steps.len() >= 2 {
            return false;
        }
    }
    true
}

/// Whether each integer of a word has at most one step. It may be seen at once.
fn is_short(word: &Word) -> bool
    ensures { result ≡ are_short word.now }
{
    word.has_letters() || are_short(word.get().as_slice())
}

/// The first integers of a long word.
fn first_of(word: &Word) -> &[OrdInt]
    requires { first_pairs ≤ length word.now }
    ensures first { result.now ≡ take first_pairs word.now }
    ensures sound { AreSound word.now → AreSound result.now }
    ensures long { length result.now ≡ first_pairs }
{
    &word.get().as_slice()[..FIRST_PAIRS]
}

/// The variables of two words of short integers and of the atom that tells which one is first, where there are at
/// most eight. It takes no memory.
fn few_names(truth: Atom, front: &[OrdInt], back: &[OrdInt]) -> Option<FewVars>
    ensures { IfSome result (λ vars. AreAmong (word_vars truth front.now back.now) vars) }
{
    if !are_short(front) || !are_short(back) {
        return None;
    }
    few_of_words(truth, front, back)
}

/// Whether the first word stands before the second, at the first place at which they differ; `None` where they
/// differ at none.
fn which_first<T: TruthValues>(front: &[OrdInt], back: &[OrdInt], sigma: T) -> Option<bool>
    requires sound_front { AreSound front.now }
    requires sound_back { AreSound back.now }
    requires lengths { length front.now ≡ length back.now }
    ensures { result ≡ which_first (T.valuation sigma) front.now back.now }
{
    for i in 0..front.len() {
        let v = front[i].value(sigma);
        let w = back[i].value(sigma);
        if v != w {
            return Some(v < w);
        }
    }
    None
}

/// Whether an atom is as true as is told. Where nothing is told it is not.
fn is_the_told<T: TruthValues>(truth: Atom, told: Option<bool>, sigma: T) -> bool
    ensures { result ≡ is_the_told (atom_truth (T.valuation sigma) truth) told }
{
    match told {
        Some(told) => truth.holds(sigma) == told,
        None => false,
    }
}

/// Whether an atom is right in telling which word is first. Of equal words it is to be `equal`, if that is given, and
/// is else not right.
fn is_told<T: TruthValues>(
    truth: Atom,
    equal: Option<bool>,
    front: &[OrdInt],
    back: &[OrdInt],
    sigma: T,
) -> bool
    requires sound_front { AreSound front.now }
    requires sound_back { AreSound back.now }
    requires lengths { length front.now ≡ length back.now }
    ensures { result ≡ is_told (T.valuation sigma) truth equal front.now back.now }
{
    is_the_told(truth, which_first(front, back, sigma).or(equal), sigma)
}

/// Whether words differ in some row of listed variables, and an atom is right there in telling which one is first.
fn is_told_somewhere(truth: Atom, front: &[OrdInt], back: &[OrdInt], vars: &[u32]) -> bool
    requires sound_front { AreSound front.now }
    requires sound_back { AreSound back.now }
    requires lengths { length front.now ≡ length back.now }
    requires few { length vars.now ≤ 8 }
    ensures { IsTrue result → (σ : Valuation) × (is_told σ truth None front.now back.now ≡ true) }
{
    let mut row = [false; 8];
    let values = &mut row[..vars.len()];
    for number in 0..row_count(vars.len()) {
        write_row(values, number);
        if is_told(truth, None, front, back, TruthRow { vars, values }) {
            return true;
        }
    }
    false
}

/// Keeps those of pairs of atoms which are equally true in each row in which an atom is right in telling which word is
/// first. The words are gone along only in rows in which some pair would fall.
fn keep_told(
    pairs: &mut Vec<(Atom, Atom)>,
    truth: Atom,
    equal: Option<bool>,
    front: &[OrdInt],
    back: &[OrdInt],
    vars: &[u32],
)
    requires sound_front { AreSound front.now }
    requires sound_back { AreSound back.now }
    requires lengths { length front.now ≡ length back.now }
    requires few { length vars.now ≤ 8 }

    // A pair stays that is equally true wherever the atom is right.
    ensures { (p : Atom × Atom) → AreEqualWhereTold truth equal front.now back.now p
        → IsIn p pairs.old.items → IsIn p pairs.new.items }
{
    let mut row = [false; 8];
    let values = &mut row[..vars.len()];
    for number in 0..row_count(vars.len()) {
        if pairs.is_empty() {
            return;
        }
        write_row(values, number);
        if is_some_apart(pairs.as_slice(), vars, values)
            && is_told(truth, equal, front, back, TruthRow { vars, values })
        {
            keep_equal(pairs, vars, values);
        }
    }
}

/// Whether an atom is right in telling which of two words is first, as `is_told` says. The words are not gone along
/// where it is seen at once that they are equal.
fn is_told_of<T: TruthValues>(
    truth: Atom,
    equal: Option<bool>,
    front: &Word,
    back: &Word,
    sigma: T,
) -> bool
    requires sound_front { AreSound front.now }
    requires sound_back { AreSound back.now }
    requires lengths { length front.now ≡ length back.now }
    ensures { result ≡ is_told (T.valuation sigma) truth equal front.now back.now }
{
    if front.is_all_one(back, sigma) {
        is_the_told(truth, equal, sigma)
    } else {
        is_told(
            truth,
            equal,
            front.get().as_slice(),
            back.get().as_slice(),
            sigma,
        )
    }
}

/// Keeps those of pairs of atoms that `keep_told` keeps. The words are not gone along where it is seen at once that
/// they are equal.
fn keep_told_of(
    pairs: &mut Vec<(Atom, Atom)>,
    truth: Atom,
    equal: Option<bool>,
    front: &Word,
    back: &Word,
    vars: &[u32],
)
    requires sound_front { AreSound front.now }
    requires sound_back { AreSound back.now }
    requires lengths { length front.now ≡ length back.now }
    requires few { length vars.now ≤ 8 }

    // A pair stays that is equally true wherever the atom is right.
    ensures { (p : Atom × Atom) → AreEqualWhereTold truth equal front.now back.now p
        → IsIn p pairs.old.items → IsIn p pairs.new.items }
{
    let mut row = [false; 8];
    let values = &mut row[..vars.len()];
    for number in 0..row_count(vars.len()) {
        if pairs.is_empty() {
            return;
        }
        write_row(values, number);
        if is_some_apart(pairs.as_slice(), vars, values)
            && is_told_of(truth, equal, front, back, TruthRow { vars, values })
        {
            keep_equal(pairs, vars, values);
        }
    }
}

/// Whether no pair over listed variables is equally true wherever an atom is right in telling which of two words is
/// first: by their first pairs alone, and then by all, of which only rows are tried in which a pair would fall. It
/// takes memory once.
fn is_none_left(
    alloc: Global,
    truth: Atom,
    equal: bool,
    front: &Word,
    back: &Word,
    vars: &[u32],
) -> Result<bool, AllocError>
    requires sound_front { AreSound front.now }
    requires sound_back { AreSound back.now }
    requires lengths { length front.now ≡ length back.now }
    requires long { first_pairs ≤ length front.now }
    requires few { length vars.now ≤ 8 }
    ensures { IfOk result (λ none. IsTrue none → (p : Atom × Atom) → IsIn p (pairs_over vars.now)
        → AreEqualWhereTold truth None (take first_pairs front.now) (take first_pairs back.now) p
        → AreEqualWhereTold truth (Some equal) front.now back.now p → ⊥) }
{
    let mut pairs = pairs_over(alloc, vars)?;
    keep_told(
        &mut pairs,
        truth,
        None,
        first_of(front),
        first_of(back),
        vars,
    );
    keep_told_of(&mut pairs, truth, Some(equal), front, back, vars);
    Ok(pairs.is_empty())
}

/// Whether an order of words whose first pairs have few names is seen to imply no equation: the first pairs tell for
/// themselves in some row which word is first, so that no other name matters there, and the rows leave no pair of those
/// over their names.
fn words_tell_nothing(
    alloc: Global,
    truth: Atom,
    strict: bool,
    front: &Word,
    back: &Word,
    vars: &[u32],
) -> Result<bool, AllocError>
    requires sound_front { AreSound front.now }
    requires sound_back { AreSound back.now }
    requires lengths { length front.now ≡ length back.now }
    requires long { first_pairs ≤ length front.now }
    requires few { length vars.now ≤ 8 }
    requires names { AreAmong (word_vars truth (take first_pairs front.now) (take first_pairs back.now)) vars.now }
    ensures { IfOk result (λ none. IsTrue none → found_at (Lex truth strict front.now back.now) ≡ None) }
{
    if !is_told_somewhere(truth, first_of(front), first_of(back), vars) {
        return Ok(false);
    }
    if !is_short(front) || !is_short(back) {
        return Ok(false);
    }
    is_none_left(alloc, truth, !strict, front, back, vars)
}

/// Whether an order of words is a long one over few names that is seen to imply no equation.
fn long_words_tell_nothing(
    alloc: Global,
    truth: Atom,
    strict: bool,
    front: &Word,
    back: &Word,
) -> Result<bool, AllocError>
    requires sound_front { AreSound front.now }
    requires sound_back { AreSound back.now }
    requires lengths { length front.now ≡ length back.now }
    ensures { IfOk result (λ none. IsTrue none → found_at (Lex truth strict front.now back.now) ≡ None) }
{
    if front.get().len() <= FIRST_PAIRS {
        return Ok(false);
    }
    match few_names(truth, first_of(front), first_of(back)) {
        Some(few) => words_tell_nothing(alloc, truth, strict, front, back, few.as_slice()),
        None => Ok(false),
    }
}

/// Whether a core is a long order of words over few names of which a look shows that it implies no equation. Of words
/// over more names, or with integers of more steps, only the first pairs are looked at. It takes memory once.
pub(crate) fn implies_nothing(alloc: Global, core: &Core) -> Result<bool, AllocError>
    requires { IsWellFormed core.now }
    ensures { IfOk result (λ none. IsTrue none → found_at core.now ≡ None) }
{
    match core {
        Core::Lex(truth, strict, front, back) => {
            long_words_tell_nothing(alloc, *truth, *strict, front, back)
        }
        _ => Ok(false),
    }
}
