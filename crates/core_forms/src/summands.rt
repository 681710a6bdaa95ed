//! The members of a sum, with what they add up to.

ghost use Rattle.std.specs.Prelude.{◌≡◌, ◌+◌, ◌+ℤ◌, ◌≤◌, ◌++◌, ◌∷◌, [], List, drop, Some, IfOk, IfSome, OnOk, OnErr};
ghost use Rattle.std.specs.Prelude.{None, MatchOption};
ghost use Rattle.order_ints.specs.declared.order_int.OrdInt.{OrdInt};
ghost use Rattle.order_ints.specs.OrderRange.{weights};
ghost use Rattle.core_forms.specs.Totals.{AreTotals, AreNarrow, before_last};

use bee_list::Sequence;
use order_ints::OrdInt;
use std::alloc::{AllocError, Global};
use std::marker::Model;

/// What the members of a sum add up to, and how wide those are that stand before the last one.
#[derive(Clone, Copy)]
pub struct Totals {
    /// The least values, added up.
    pub low: i128,
    /// The greatest values less the least ones, added up.
    pub width: u128,
    /// No member but the last has its greatest value farther than this above its least one.
    pub widest: u128,
}

/// A list, with what its members add up to where that is known.
#[derive(Drop)]
struct Listed {
    ints: Sequence<OrdInt>,
    totals: Option<Totals>,
}

/// The members of a sum. Beside the list stands what they add up to, where that is no greater than a machine's number,
/// so that what the others leave one of them is known in constant time, also of what is left of a list that is split.
#[derive(Drop)]
pub struct Summands {
    inner: Box<Listed>,
}

impl Model for Summands {
    ghost use Rattle.std.specs.Prelude.{List, IfSome};
    ghost use Rattle.core_forms.specs.Totals.{AreTotals};
    ghost use Rattle.order_ints.specs.declared.order_int.OrdInt.{OrdInt};

    ghost Value = { List OrdInt };

    ghost view = { λ s. s.inner.value.ints };

    ghost invariant = { λ s. IfSome s.inner.value.totals (AreTotals s.inner.value.ints) };
}

/// The weights of an integer's steps, added up.
fn width_of(a: &OrdInt) -> Option<u128>
    ensures { IfSome result (λ width. width ≡ weights a.now.steps) }
{
    let steps = a.steps.as_slice();
    let mut width: u128 = 0;
    for step in steps {
        width = width.checked_add(step.1)?;
    }
    Some(width)
}

/// The greater of two numbers.
fn greater(a: u128, b: u128) -> u128
    ensures first { a ≤ result }
    ensures second { b ≤ result }
{
    if a < b { b } else { a }
}

/// The last of some integers.
pub(crate) fn last_of(ints: &[OrdInt]) -> Option<&OrdInt>
    ensures { MatchOption result (ints.now ≡ []) (λ last. ints.now ≡ before_last ints.now ++ last.now ∷ []) }
{
    match ints.split_last() {
        Some((last, _)) => Some(last),
        None => None,
    }
}

impl Totals {
    /// Of no member.
    fn none() -> Totals
        ensures { AreTotals [] result }
    {
        Totals {
            low: 0,
            width: 0,
            widest: 0,
        }
    }

    /// With one more member.
    fn with(&self, a: &OrdInt) -> Option<Totals>
        ensures low { IfSome result (λ now. now.low ≡ self.now.low +ℤ a.now.base) }
        ensures width { IfSome result (λ now. now.width ≡ self.now.width + weights a.now.steps) }
        ensures widest { IfSome result (λ now. now.widest ≡ self.now.widest) }
    {
        Some(Totals {
            low: self.low.checked_add(a.base)?,
            width: self.width.checked_add(width_of(a)?)?,
            widest: self.widest,
        })
    }

    /// Without a member.
    fn without(&self, a: &OrdInt) -> Option<Totals>
        ensures low { IfSome result (λ now. now.low +ℤ a.now.base ≡ self.now.low) }
        ensures width { IfSome result (λ now. now.width + weights a.now.steps ≡ self.now.width) }
        ensures widest { IfSome result (λ now. now.widest ≡ self.now.widest) }
    {
        Some(Totals {
            low: self.low.checked_sub(a.base)?,
            width: self.width.checked_sub(width_of(a)?)?,
            widest: self.widest,
        })
    }

    /// Where a member that was the last is no longer that.
    fn behind(&self, a: &OrdInt) -> Option<Totals>
        ensures low { IfSome result (λ now. now.low ≡ self.now.low) }
        ensures width { IfSome result (λ now. now.width ≡ self.now.width) }
        ensures others { IfSome result (λ now. self.now.widest ≤ now.widest) }
        ensures this { IfSome result (λ now. weights a.now.steps ≤ now.widest) }
    {
        Some(Totals {
            low: self.low,
            width: self.width,
            widest: greater(self.widest, width_of(a)?),
        })
    }
}

/// The totals with one more member behind the others.
fn with_last(totals: &Totals, ints: &[OrdInt], a: &OrdInt) -> Option<Totals>
    requires { AreTotals ints.now totals.now }
    ensures { IfSome result (AreTotals (ints.now ++ a.now ∷ [])) }
{
    let last = match last_of(ints) {
        Some(last) => last,
        None => return totals.with(a),
    };
    let before = totals.behind(last)?;
    before.with(a)
}

/// The totals of a list.
fn totals_of(ints: &[OrdInt]) -> Option<Totals>
    ensures { IfSome result (AreTotals ints.now) }
{
    let mut totals = Totals::none();
    for i in 0..ints.len() {
        totals = with_last(&totals, &ints[..i], &ints[i])?;
    }
    Some(totals)
}

/// The totals without the last of some integers.
fn without_last(totals: Option<Totals>, ints: &[OrdInt]) -> Option<Totals>
    requires { IfSome totals (AreTotals ints.now) }
    ensures totals { IfSome result (AreTotals (before_last ints.now)) }
    ensures narrow { IfSome result (λ now. AreNarrow now.widest (before_last ints.now)) }
{
    let totals = totals?;
    match last_of(ints) {
        Some(last) => totals.without(last),
        None => Some(totals),
    }
}

/// The totals with another integer behind some that are all before the last one.
fn with_another(totals: Option<Totals>, members: &[OrdInt], a: &OrdInt) -> Option<Totals>
    requires totals { IfSome totals (AreTotals (before_last members.now)) }
    requires narrow { IfSome totals (λ all. AreNarrow all.widest (before_last members.now)) }
    ensures { IfSome result (AreTotals (before_last members.now ++ a.now ∷ [])) }
{
    let totals = totals?;
    totals.with(a)
}

/// The totals without the first of some integers.
fn without_first(totals: Option<Totals>, ints: &[OrdInt], count: usize) -> Option<Totals>
    requires { IfSome totals (AreTotals ints.now) }
    ensures { IfSome result (AreTotals (drop count ints.now)) }
{
    let mut totals = totals?;
    let gone = count.min(ints.len());
    for i in 0..gone {
        totals = totals.without(&ints[i])?;
    }
    Some(totals)
}

impl Summands {
    /// The members of a list. It takes one pass over them.
    pub fn new(alloc: Global, ints: Sequence<OrdInt>) -> Result<Summands, AllocError>
        ensures { IfOk result (λ made. made ≡ ints) }
    {
        let totals = totals_of(ints.as_slice());
        let inner = Box::new(alloc, Listed { ints, totals })?;
        Ok(Summands { inner })
    }

    /// The members.
    pub fn as_slice(&self) -> &[OrdInt]
        ensures { result.now ≡ self.now }
    {
        self.inner.ints.as_slice()
    }

    /// The list of the members.
    pub fn sequence(&self) -> &Sequence<OrdInt>
        ensures { result.now ≡ self.now }
    {
        &self.inner.ints
    }

    /// The list of the members.
    pub fn into_sequence(self) -> Sequence<OrdInt>
        ensures { result ≡ self }
    {
        let Summands { inner } = self;
        let Listed { ints, .. } = Box::into_inner(inner);
        ints
    }

    /// What they add up to, where it is known.
    pub fn totals(&self) -> Option<Totals>
        ensures { IfSome result (AreTotals self.now) }
    {
        self.inner.totals
    }

    /// A member comes at the back.
    pub fn push(&mut self, a: OrdInt) -> Result<(), AllocError>
        ensures pushed { OnOk result (self.new ≡ self.old ++ a ∷ []) }
        ensures stays { OnErr result (self.new ≡ self.old) }
    {
        let totals = match self.inner.totals {
            Some(totals) => with_last(&totals, self.inner.ints.as_slice(), &a),
            None => None,
        };
        self.inner.ints.push(a)?;
        self.inner.totals = totals;
        Ok(())
    }

    /// The last member falls out of use, if there is one.
    pub fn drop_last(&mut self)
        ensures dropped { (members : List OrdInt) (last : OrdInt)
            → self.old ≡ members ++ last ∷ [] → self.new ≡ members }
        ensures none { self.old ≡ [] → self.new ≡ [] }
    {
        if self.inner.ints.is_empty() {
            return;
        }
        let totals = without_last(self.inner.totals, self.inner.ints.as_slice());
        self.inner.ints.drop_last();
        self.inner.totals = totals;
    }

    /// So many members leave at the front.
    pub fn drop_front(&mut self, count: usize)
        ensures { self.new ≡ drop count self.old }
    {
        let totals = without_first(self.inner.totals, self.inner.ints.as_slice(), count);
        self.inner.totals = totals;
        self.inner.ints.drop_front(count);
    }

    /// Another last member, in place of the one that is there, which is given back; `None` where there is none.
    pub fn replace_last(&mut self, a: OrdInt) -> Option<OrdInt>
        ensures replaced { (members : List OrdInt) (last : OrdInt) → self.old ≡ members ++ last ∷ []
            → (self.new ≡ members ++ a ∷ []) × (result ≡ Some last) }
        ensures none { self.old ≡ [] → (self.new ≡ []) × (result ≡ None) }
    {
        if self.inner.ints.is_empty() {
            return None;
        }
        let ints = self.inner.ints.as_slice();
        let totals = with_another(without_last(self.inner.totals, ints), ints, &a);
        let last = self.inner.ints.replace_last(a);
        self.inner.totals = totals;
        last
    }
}
