//! A name of the model language.

ghost use Rattle.std.specs.Prelude.{◌≡◌, ◌∷◌, [], IfOk};
ghost use Rattle.std.proofs.Common.{rules};
ghost use Rattle.std.specs.Cmp.{partial_equiv_from_equiv};
ghost use Rattle.std.specs.Cmp.Lexicographic.{nat_list_eq_equiv};
ghost use Rattle.std.specs.Cmp.Rules.{hashing};
ghost use Rattle.std.specs.Str.{bytes_eq};

use smallvec::SmallVec;
use std::alloc::{AllocError, Global};
use std::hash::{Hash, Hasher};
use std::marker::Model;

/// A name: a letter or `_`, then letters, digits and `_`. A clause sees it as the list of its bytes. Up to 16
/// bytes are kept in the name itself, and only a longer name takes memory of its own.
#[derive(Debug)]
pub struct Name {
    bytes: SmallVec<u8, 16>,
}

impl Model for Name {
    ghost use Rattle.std.specs.Prelude.{List, ℕ};

    ghost Value = { List ℕ };

    ghost view = { λ n. n.bytes.items };
}

impl Name {
    /// The name that has these bytes. A short vector is let go.
    pub fn from_vec(bytes: Vec<u8>) -> Name
        ensures { result ≡ bytes.items }
    {
        Name {
            bytes: SmallVec::from_vec(bytes),
        }
    }

    /// The name that has a copy of these bytes.
    pub fn from_slice(alloc: Global, bytes: &[u8]) -> Result<Name, AllocError>
        ensures { IfOk result (λ n. n ≡ bytes.now) }
    {
        Ok(Name {
            bytes: SmallVec::from_slice(alloc, bytes)?,
        })
    }

    /// The bytes.
    pub fn as_bytes(&self) -> &[u8]
        ensures { result.now ≡ self.now }
    {
        self.bytes.as_slice()
    }
}

/// By hand, so that what a clause knows of a copy is that it equals its source, however the bytes are kept.
impl Clone for Name {
    ghost is_clone = { λ n copy. copy ≡ n };

    fn clone(&self) -> Result<Name, AllocError> {
        Name::from_slice(*self.bytes.allocator(), self.as_bytes())
    }
}

/// By hand, so that a function in which a name falls out of use need not tell how its bytes are kept.
impl Drop for Name {
    fn drop(self) {
        let Name { bytes } = self;
        drop(bytes);
    }
}

/// Names are equal where their bytes are.
impl PartialEq for Name {
    ghost eq = { bytes_eq };

    ghost laws = { partial_equiv_from_equiv nat_list_eq_equiv };

    fn eq(&self, other: &Name) -> bool {
        self.as_bytes() == other.as_bytes()
    }
}

impl Eq for Name {
    ghost laws = { nat_list_eq_equiv };
}

/// All the bytes are fed at once, which takes a hasher far fewer steps than one byte at a time.
impl Hash for Name {
    ghost hash_input = { λ n. n ∷ [] };

    ghost respects_eq = { Prim.search (hashing, rules) };

    fn hash<H: Hasher>(&self, state: &mut H) {
        state.write(self.as_bytes());
    }
}
