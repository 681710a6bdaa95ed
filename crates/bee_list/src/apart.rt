//! A value with a place of its own, which contracts see as the value at every depth.

ghost use Rattle.std.specs.Prelude.{◌≡◌, IfOk, drop};

use crate::sequence::Sequence;
use std::alloc::{AllocError, Global};
use std::marker::Model;

/// A value that stands apart from what holds it, which so takes no more than a pointer for it. A clause
/// sees it as the value wherever it stands.
#[derive(Debug, Clone, Drop)]
pub struct Apart<T> {
    inner: Box<T>,
}

impl<T> Model for Apart<T> {
    ghost Value = { T };

    ghost view = { λ a. a.inner.value };
}

impl<T> Apart<T> {
    /// The value.
    pub fn get(&self) -> &T
        ensures { result.now ≡ self.now }
    {
        &self.inner
    }

    /// The value, whose place is given back.
    pub fn into_inner(self) -> T
        ensures { result ≡ self }
    {
        let Apart { inner } = self;
        Box::into_inner(inner)
    }
}

impl<T: Drop> Apart<T> {
    /// A value, put apart.
    pub fn new(alloc: Global, value: T) -> Result<Apart<T>, AllocError>
        ensures { IfOk result (λ a. a ≡ value) }
    {
        let inner = Box::new(alloc, value)?;
        Ok(Apart { inner })
    }
}

impl<T> Apart<Sequence<T>> {
    /// So many members of the list leave at its front, or all where there are no more. It takes constant time.
    pub fn drop_front(&mut self, count: usize)
        ensures { self.new ≡ drop count self.old }
    {
        self.inner.drop_front(count);
    }
}
