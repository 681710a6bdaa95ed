//! A list over a `Vec`, which contracts see as the list of its members at every depth.

ghost use Rattle.std.specs.Prelude.{◌≡◌, ◌==◌, ◌↔◌, ◌++◌, ◌∷◌, [], IsTrue, OnOk, OnErr, drop};
ghost use Rattle.std.specs.Prelude.{length, List, None, Some};
ghost use Rattle.std.specs.Cmp.Lexicographic.{pointwise, lists_per, lists_equiv};

use std::alloc::{AllocError, Global};
use std::marker::Model;

/// A list of values. It is made from a `Vec` and gives it back without memory, and a clause sees it as
/// the list of its members wherever it stands: in a struct, in an enum, in another list.
///
/// Members leave at its front in constant time, and come at its back: those that left stay in the vector, before the
/// start, until the list falls out of use or gives its vector back.
#[derive(Debug, Clone, Drop)]
pub struct Sequence<T> {
    items: Vec<T>,
    start: usize,
}

impl<T> Model for Sequence<T> {
    ghost use Rattle.std.specs.Prelude.{List, drop};

    ghost Value = { List T };

    ghost view = { λ s. drop s.start s.items.items };
}

impl<T> Sequence<T> {
    /// The list of a vector's members.
    pub fn from_vec(items: Vec<T>) -> Sequence<T>
        ensures { result ≡ items.items }
    {
        Sequence { items, start: 0 }
    }

    /// The members, in order.
    pub fn as_slice(&self) -> &[T]
        ensures { result.now ≡ self.now }
    {
        let items = self.items.as_slice();
        let (_, members) = items.split_at(self.start.min(items.len()));
        members
    }

    /// The allocator that the list's memory comes from.
    pub fn allocator(&self) -> Global {
        *self.items.allocator()
    }

    /// The number of members.
    pub fn len(&self) -> usize
        ensures { result ≡ length self.now }
    {
        self.items.len().saturating_sub(self.start)
    }

    /// Whether there is no member.
    pub fn is_empty(&self) -> bool
        ensures { result ≡ (length self.now == 0) }
    {
        self.len() == 0
    }

    /// So many members leave at the front, or all where there are no more. It takes constant time.
    pub fn drop_front(&mut self, count: usize)
        ensures { self.new ≡ drop count self.old }
    {
        self.start = self.start.saturating_add(count).min(self.items.len());
    }
}

impl<T: Drop> Sequence<T> {
    /// The vector of the list's members. It takes constant time where no member has left.
    pub fn into_vec(self) -> Vec<T>
        ensures { result.items ≡ self }
    {
        let Sequence { mut items, start } = self;
        let gone = start.min(items.len());
        drop(items.drain(..gone));
        items
    }

    /// A member comes at the back. For want of memory it falls out of use, and the list stays.
    pub fn push(&mut self, value: T) -> Result<(), AllocError>
        ensures pushed { OnOk result (self.new ≡ self.old ++ value ∷ []) }
        ensures stays { OnErr result (self.new ≡ self.old) }
    {
        self.start = self.start.min(self.items.len());
        self.items.push(value)?;
        Ok(())
    }

    /// The last member falls out of use, if there is one.
    pub fn drop_last(&mut self)
        ensures dropped { (members : List T) (last : T) → self.old ≡ members ++ last ∷ [] → self.new ≡ members }
        ensures none { self.old ≡ [] → self.new ≡ [] }
    {
        if self.start < self.items.len() {
            drop(self.items.pop());
        }
    }

    /// Another last member, in place of the one that is there, which is given back; `None` where there is none, and
    /// then the other falls out of use. It takes constant time.
    pub fn replace_last(&mut self, value: T) -> Option<T>
        ensures replaced { (members : List T) (last : T) → self.old ≡ members ++ last ∷ []
            → (self.new ≡ members ++ value ∷ []) × (result ≡ Some last) }
        ensures none { self.old ≡ [] → (self.new ≡ []) × (result ≡ None) }
    {
        if self.start >= self.items.len() {
            return None;
        }
        let last = self.items.pop();
        self.items.push_reserved(value);
        last
    }
}

/// Lists are equal where their members are, place by place. Where `==` of members is equality, so is that of
/// lists.
impl<T: PartialEq> PartialEq for Sequence<T> {
    ghost eq = { pointwise T.eq };

    ghost laws = { lists_per T.PartialEq.laws };

    fn eq(&self, other: &Sequence<T>) -> bool
        ensures members { result ≡ pointwise T.eq self.now other.now }
        ensures equal { ((x y : T) → IsTrue (T.eq x y) ↔ (x ≡ y)) → IsTrue result ↔ (self.now ≡ other.now) }
    {
        self.as_slice() == other.as_slice()
    }
}

impl<T: Eq> Eq for Sequence<T> {
    ghost laws = { lists_equiv T.Eq.laws };
}
