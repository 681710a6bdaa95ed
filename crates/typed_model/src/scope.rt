//! The names that are declared so far, and what terms mean among them.

ghost use Rattle.std.specs.Prelude.{◌≡◌, ◌∷◌, ◌++◌, [], ℤ, List, pos, OnOk, IfOk, None, is_some};
ghost use Rattle.std.specs.Prelude.{slice_get};
ghost use Rattle.std.specs.Option.{option_copied, option_map};
ghost use Rattle.model_meaning.specs.Places.{place_of, low_of, is_true, is_constant};
ghost use Rattle.typed_model.specs.Scope.{sort_of, sort_is_bool, sort_is_int, kind_of, is_bool, is_int, is_unknown};
ghost use Rattle.typed_model.specs.Scope.{term_unknown, terms_unknown, is_truth, is_number, is_numeral, all_truths};
ghost use Rattle.typed_model.specs.Scope.{all_numbers, all_numerals, place_or_zero, truth, number, numeral};

use crate::names::is;
use bumblebee_reader::{Name, Term};
use indexmap::IndexMap;
use model_meaning::{BoolTerm, Decl, IntTerm, Kind};
use std::alloc::{AllocError, Global};
use std::marker::Model;

/// The sort of a declared name, without a domain.
#[derive(Clone, Copy)]
enum Sort {
    Bool,
    Int,
}

/// The declarations so far, and beside them their names and sorts for look-up. A clause sees it as the list of the
/// declarations. The names lie in the table itself, unless they are long, and a sort takes a single byte, so that a
/// look-up touches few places of memory.
#[derive(Drop)]
pub(crate) struct Scope {
    sorts: IndexMap<Name, Sort>,
    decls: Vec<Decl>,
}

impl Model for Scope {
    ghost use Rattle.std.specs.Prelude.{◌≡◌, List, map};
    ghost use Rattle.model_meaning.specs.declared.model.Decl.{Decl};
    ghost use Rattle.typed_model.specs.Scope.{entry_of};

    ghost Value = { List Decl };

    ghost view = { λ s. s.decls.items };

    ghost invariant = { λ s. s.sorts.entries ≡ map entry_of s.decls.items };
}

impl Scope {
    /// No declaration.
    pub(crate) fn new(alloc: Global) -> Scope
        ensures { result ≡ [] }
    {
        Scope {
            sorts: IndexMap::new(alloc),
            decls: Vec::new(alloc),
        }
    }

    /// The place of a name.
    pub(crate) fn place_of(&self, name: &Name) -> Option<usize>
        ensures { result ≡ place_of name.now self.now }
    {
        self.sorts.get_index_of(name)
    }

    /// What a name stands for. It reads the declaration, which its sort alone does without.
    pub(crate) fn kind_of(&self, name: &Name) -> Option<&Kind>
        ensures { option_copied result ≡ kind_of name.now self.now }
    {
        match self.place_of(name) {
            Some(place) => match self.decls.get(place) {
                Some(decl) => Some(&decl.kind),
                None => None,
            },
            None => None,
        }
    }

    /// The sort of what a name stands for. The declaration itself isn't touched.
    fn sort_of(&self, name: &Name) -> Option<Sort>
        ensures { result ≡ option_map sort_of (kind_of name.now self.now) }
    {
        match self.sorts.get_full(name) {
            Some((_, _, sort)) => Some(*sort),
            None => None,
        }
    }

    /// Whether a name stands for a Boolean.
    fn names_bool(&self, name: &Name) -> bool
        ensures { result ≡ is_bool (kind_of name.now self.now) }
    {
        sort_is_bool(self.sort_of(name))
    }

    /// Whether a name stands for an integer.
    fn names_int(&self, name: &Name) -> bool
        ensures { result ≡ is_int (kind_of name.now self.now) }
    {
        sort_is_int(self.sort_of(name))
    }

    /// Whether a name other than `true` and `false` isn't declared.
    pub(crate) fn is_unknown(&self, name: &Name) -> bool
        ensures { result ≡ is_unknown self.now name.now }
    {
        !is_constant(name.as_bytes()) && self.place_of(name).is_none()
    }

    /// Whether the name of a term isn't declared.
    pub(crate) fn term_unknown(&self, term: &Term) -> bool
        ensures { result ≡ term_unknown self.now term.now }
    {
        match term {
            Term::Plain(name) => self.is_unknown(name),
            Term::Minus(name) => self.is_unknown(name),
            Term::Number(_) => false,
        }
    }

    /// Whether the name of some term isn't declared.
    pub(crate) fn terms_unknown(&self, terms: &[Term]) -> bool
        ensures { result ≡ terms_unknown self.now terms.now }
    {
        for term in terms {
            if self.term_unknown(term) {
                return true;
            }
        }
        false
    }

    /// Whether a term is a Boolean term.
    pub(crate) fn is_truth(&self, term: &Term) -> bool
        ensures { result ≡ is_truth self.now term.now }
    {
        match term {
            Term::Plain(name) => is_constant(name.as_bytes()) || self.names_bool(name),
            Term::Minus(name) => self.names_bool(name),
            Term::Number(_) => false,
        }
    }

    /// Whether a term is an integer term.
    pub(crate) fn is_number(&self, term: &Term) -> bool
        ensures { result ≡ is_number self.now term.now }
    {
        match term {
            Term::Plain(name) => self.names_int(name),
            Term::Minus(_) => false,
            Term::Number(_) => true,
        }
    }

    /// Whether each term is a Boolean term.
    pub(crate) fn all_truths(&self, terms: &[Term]) -> bool
        ensures { result ≡ all_truths self.now terms.now }
    {
        for term in terms {
            if !self.is_truth(term) {
                return false;
            }
        }
        true
    }

    /// Whether each term is an integer term.
    pub(crate) fn all_numbers(&self, terms: &[Term]) -> bool
        ensures { result ≡ all_numbers self.now terms.now }
    {
        for term in terms {
            if !self.is_number(term) {
                return false;
            }
        }
        true
    }

    /// The place of a name, or 0 where it isn't declared.
    pub(crate) fn place_or_zero(&self, name: &Name) -> usize
        ensures { result ≡ place_or_zero name.now self.now }
    {
        match self.place_of(name) {
            Some(place) => place,
            None => 0,
        }
    }

    /// The Boolean term that a term of a text is.
    pub(crate) fn truth(&self, term: &Term) -> BoolTerm
        ensures { result ≡ truth self.now term.now }
    {
        match term {
            Term::Plain(name) => {
                let bytes = name.as_bytes();
                if is_constant(bytes) {
                    BoolTerm::Const(is_true(bytes))
                } else {
                    BoolTerm::Of {
                        place: self.place_or_zero(name),
                        positive: true,
                    }
                }
            }
            Term::Minus(name) => BoolTerm::Of {
                place: self.place_or_zero(name),
                positive: false,
            },
            Term::Number(_) => BoolTerm::Const(false),
        }
    }

    /// The integer term that a term of a text is.
    pub(crate) fn number(&self, term: &Term) -> IntTerm
        ensures { result ≡ number self.now term.now }
    {
        match term {
            Term::Plain(name) => IntTerm::Of(self.place_or_zero(name)),
            Term::Minus(_) => IntTerm::Number(0),
            Term::Number(number) => IntTerm::Number(*number),
        }
    }

    /// Adds a declaration of a name that isn't declared.
    pub(crate) fn add(&mut self, decl: Decl) -> Result<(), AllocError>
        requires { place_of decl.name self.old ≡ None }
        ensures { OnOk result (self.new ≡ self.old ++ decl ∷ []) }
    {
        let name = decl.name.clone()?;
        self.decls.reserve(1)?;
        self.sorts.insert(name, sort_of(&decl.kind))?;
        self.decls.push(decl).unwrap();
        Ok(())
    }

    /// The declarations, in order.
    pub(crate) fn into_decls(self) -> Vec<Decl>
        ensures { result.items ≡ self }
    {
        let Scope { sorts, decls } = self;
        drop(sorts);
        decls
    }
}

/// The sort of what is declared.
fn sort_of(kind: &Kind) -> Sort
    ensures { result ≡ sort_of kind.now }
{
    match kind {
        Kind::Bool => Sort::Bool,
        Kind::Range { .. } | Kind::Listed { .. } => Sort::Int,
    }
}

/// Whether it is a declared Boolean's sort.
fn sort_is_bool(sort: Option<Sort>) -> bool
    ensures { result ≡ sort_is_bool sort }
{
    matches!(sort, Some(Sort::Bool))
}

/// Whether it is a declared integer's sort.
fn sort_is_int(sort: Option<Sort>) -> bool
    ensures { result ≡ sort_is_int sort }
{
    matches!(sort, Some(Sort::Int))
}

/// Whether a name is `true`.
pub(crate) fn is_true(name: &[u8]) -> bool
    ensures { result ≡ is_true name.now }
{
    is(name, b"true")
}

/// Whether a name is `true` or `false`.
pub(crate) fn is_constant(name: &[u8]) -> bool
    ensures { result ≡ is_constant name.now }
{
    is_true(name) || is(name, b"false")
}

/// Whether it is a declared Boolean.
pub(crate) fn is_bool(kind: Option<&Kind>) -> bool
    ensures { result ≡ is_bool (option_copied kind.entry) }
{
    matches!(kind, Some(Kind::Bool))
}

/// Whether it is a declared integer.
pub(crate) fn is_int(kind: Option<&Kind>) -> bool
    ensures { result ≡ is_int (option_copied kind.entry) }
{
    matches!(kind, Some(Kind::Range { .. } | Kind::Listed { .. }))
}

/// The least value of what is declared.
pub(crate) fn low_of(kind: Option<&Kind>) -> i64
    ensures { result ≡ low_of (option_copied kind.entry) }
{
    match kind {
        Some(Kind::Range { low, .. }) => *low,
        Some(Kind::Listed { values }) => values.least(),
        Some(Kind::Bool) | None => 0,
    }
}

/// Whether a term is a numeral.
pub(crate) fn is_numeral(term: &Term) -> bool
    ensures { result ≡ is_numeral term.now }
{
    matches!(term, Term::Number(_))
}

/// Whether each term is a numeral.
pub(crate) fn all_numerals(terms: &[Term]) -> bool
    ensures { result ≡ all_numerals terms.now }
{
    for term in terms {
        if !is_numeral(term) {
            return false;
        }
    }
    true
}

/// The number of a numeral.
pub(crate) fn numeral(term: &Term) -> i64
    ensures { result ≡ numeral term.now }
{
    match term {
        Term::Number(number) => *number,
        _ => 0,
    }
}
