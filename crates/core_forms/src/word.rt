//! A word of an order of words, with its letters where it has few.

ghost use Rattle.std.specs.Prelude.{◌≡◌, ◌∷◌, [], ℕ, true, drop, Contains, List, IfOk, IfSome, IsTrue};
ghost use Rattle.order_ints.specs.declared.atom.Atom.TheVariants.{Of};
ghost use Rattle.order_ints.specs.declared.order_int.OrdInt.{OrdInt};
ghost use Rattle.core_forms.specs.Letters.{IsLetter, AreLetters, HaveOneStep, AreAllOne};

use crate::few::FewVars;
use bee_list::Sequence;
use order_ints::{Atom, OrdInt, TruthValues};
use std::alloc::{AllocError, Global};
use std::marker::Model;

/// The letters of a word: each integer is the truth of a name, with one base and one weight.
#[derive(Drop)]
pub struct Letters {
    names: FewVars,
    base: i128,
    weight: u128,
}

/// A list, with its letters where it has few.
#[derive(Drop)]
struct Lettered {
    ints: Sequence<OrdInt>,
    letters: Option<Letters>,
}

/// A word of an order of words. Beside the list stand its letters, where each integer is the truth of one of at most
/// eight names: then a valuation in which these are equally true gives all integers one value, also in what is left of
/// a word that is split, and that is seen without a walk along it.
#[derive(Drop)]
pub struct Word {
    inner: Box<Lettered>,
}

impl Model for Word {
    ghost use Rattle.std.specs.Prelude.{List, IfSome};
    ghost use Rattle.order_ints.specs.declared.order_int.OrdInt.{OrdInt};
    ghost use Rattle.core_forms.specs.Letters.{AreLetters};

    ghost Value = { List OrdInt };

    ghost view = { λ s. s.inner.value.ints };

    ghost invariant = { λ s. IfSome s.inner.value.letters
        (λ letters. AreLetters letters.names letters.base letters.weight s.inner.value.ints) };
}

/// The name and the weight of an integer that is a name's truth.
fn letter_of(a: &OrdInt) -> Option<(u32, u128)>
    ensures { IfSome result
        (λ letter. a.now.steps ≡ (Of (record { var = letter.0; positive = true }), letter.1) ∷ []) }
{
    let steps = a.steps.as_slice();
    if steps.len() != 1 {
        return None;
    }
    match steps[0].0 {
        Atom::Of(literal) => {
            if literal.positive {
                Some((literal.var, steps[0].1))
            } else {
                None
            }
        }
        Atom::True | Atom::False => None,
    }
}

/// Whether an integer has a base.
fn has_base(a: &OrdInt, base: i128) -> bool
    ensures { IsTrue result → a.now.base ≡ base }
{
    a.base == base
}

/// Puts the name of an integer among others, where it has that base and that weight.
fn put_letter(names: &mut FewVars, base: i128, weight: u128, a: &OrdInt) -> Option<()>
    ensures letter { IfSome result (λ _. IsLetter names.new base weight a.now) }
    ensures kept { IfSome result (λ _. (v : ℕ) → Contains names.old v → Contains names.new v) }
{
    let (name, own) = letter_of(a)?;
    if has_base(a, base) && own == weight {
        names.put(name)
    } else {
        None
    }
}

/// The names of letters with one base and one weight, where these are few.
fn names_of(ints: &[OrdInt], base: i128, weight: u128) -> Option<FewVars>
    ensures { IfSome result (λ names. AreLetters names base weight ints.now) }
{
    let mut names = FewVars::none();
    for a in ints {
        put_letter(&mut names, base, weight, a)?;
    }
    Some(names)
}

/// The letters of a list, where these are few.
fn letters_of(ints: &[OrdInt]) -> Option<Letters>
    ensures { IfSome result (λ letters. AreLetters letters.names letters.base letters.weight ints.now) }
{
    let first = ints.first()?;
    let (_, weight) = letter_of(first)?;
    let names = names_of(ints, first.base, weight)?;
    Some(Letters {
        names,
        base: first.base,
        weight,
    })
}

/// What names are, where they are equally true.
fn truth_of<T: TruthValues>(names: &[u32], sigma: T) -> Option<bool>
    ensures { IfSome result (λ told. (v : ℕ) → Contains names.now v → T.valuation sigma v ≡ told) }
{
    let told = sigma.truth(*names.first()?);
    for name in names {
        if sigma.truth(*name) != told {
            return None;
        }
    }
    Some(told)
}

/// Whether letters have one base and one weight.
fn are_alike(first: &Letters, second: &Letters) -> bool
    ensures base { IsTrue result → first.now.base ≡ second.now.base }
    ensures weight { IsTrue result → first.now.weight ≡ second.now.weight }
{
    first.base == second.base && first.weight == second.weight
}

/// Whether the letters of two words are one value.
fn are_all_one<T: TruthValues>(first: &Letters, second: &Letters, sigma: T) -> bool
    ensures { IsTrue result → (xs ys : List OrdInt)
        → AreLetters first.now.names first.now.base first.now.weight xs
        → AreLetters second.now.names second.now.base second.now.weight ys
        → AreAllOne (T.valuation sigma) xs ys }
{
    if !are_alike(first, second) {
        return false;
    }
    match truth_of(first.names.as_slice(), sigma) {
        Some(told) => truth_of(second.names.as_slice(), sigma) == Some(told),
        None => false,
    }
}

impl Word {
    /// The word of a list. It takes one pass over it.
    pub fn new(alloc: Global, ints: Sequence<OrdInt>) -> Result<Word, AllocError>
        ensures { IfOk result (λ word. word ≡ ints) }
    {
        let letters = letters_of(ints.as_slice());
        let inner = Box::new(alloc, Lettered { ints, letters })?;
        Ok(Word { inner })
    }

    /// The list.
    pub fn get(&self) -> &Sequence<OrdInt>
        ensures { result.now ≡ self.now }
    {
        &self.inner.ints
    }

    /// The list, whose place is given back.
    pub fn into_inner(self) -> Sequence<OrdInt>
        ensures { result ≡ self }
    {
        let Word { inner } = self;
        let Lettered { ints, .. } = Box::into_inner(inner);
        ints
    }

    /// So many members leave at the front. It takes constant time.
    pub fn drop_front(&mut self, count: usize)
        ensures { self.new ≡ drop count self.old }
    {
        self.inner.ints.drop_front(count);
    }

    /// Whether each integer is known to have one step. It takes constant time.
    pub fn has_letters(&self) -> bool
        ensures { IsTrue result → HaveOneStep self.now }
    {
        self.inner.letters.is_some()
    }

    /// Whether it is seen that all integers of this word and of another one have one value. It takes constant time.
    pub fn is_all_one<T: TruthValues>(&self, other: &Word, sigma: T) -> bool
        ensures { IsTrue result → AreAllOne (T.valuation sigma) self.now other.now }
    {
        match (&self.inner.letters, &other.inner.letters) {
            (Some(first), Some(second)) => are_all_one(first, second, sigma),
            _ => false,
        }
    }
}
