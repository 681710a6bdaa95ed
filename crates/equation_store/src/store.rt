//! The store of equations between literals.

ghost use Rattle.std.specs.Prelude.{◌≡◌, ◌≢◌, ◌+◌, ◌^◌, ◌<◌, ◌≤◌, ◌⊎◌, ◌↔◌};
ghost use Rattle.std.specs.Prelude.{◌++◌, length, IsNone, IsSomeAnd, IfSome, IfOk, OnOk, OnErr, ℕ, true};
ghost use Rattle.order_ints.specs.Truth.{not_atom};
ghost use Rattle.order_ints.specs.View.{label_of, resolve};
ghost use Rattle.order_ints.specs.Label.{IsOwnLabel, own_labels};
ghost use Rattle.equation_store.specs.Class.{is_of, IsMember, IsWalk, first_in, after_in};
ghost use Rattle.equation_store.specs.Store.{IsStore, ListsChanged, class_walk};
ghost use Rattle.equation_store.specs.Merge.{loser_of, IsRelabelled, merged};
ghost use Rattle.equation_store.specs.Laws.{IsAtomOf, IsConstant, AlwaysEqual, NeverEqual, AddsEquation, Doubles};

use crate::classes::member_behind;
use crate::labels::{push_alone, push_ones, push_own_labels};
use crate::relabel::{Merged, change_between, merge_labels};
use order_ints::{Atom, resolve};
use std::alloc::{AllocError, Global};
use std::marker::Model;
use std::mem::size_of;

/// Equations between literals: each variable has a label, a constant or a literal of a variable that is
/// its own label, and is as true as its label. The variables whose labels are literals of the same
/// variable are a class, and stand in one ring. It takes 20 bytes for each variable.
#[derive(Drop)]
pub struct EqStore {
    /// The label of each variable.
    labels: Vec<Atom>,
    /// The size of the class of each variable that is its own label.
    sizes: Vec<u32>,
    /// The variable behind each one in the ring of its class.
    next: Vec<u32>,
}

const _: () = prove!(size_of::<Atom>() + 2 * size_of::<u32>() <= 20);

impl Model for EqStore {
    ghost use Rattle.equation_store.specs.Store.{Store, IsKept, store_of};

    ghost Value = { Store };

    ghost view = { λ s. store_of s.labels.items s.sizes.items s.next.items };

    ghost invariant = { λ s. IsKept s.labels.items s.sizes.items s.next.items };
}

impl EqStore {
    /// A store of variables 1 to `vars`, each its own label.
    pub fn with(alloc: Global, vars: u32) -> Result<EqStore, AllocError>
        requires { vars ≤ 2 ^ 27 }
        ensures view { IfOk result (λ store. store.view ≡ own_labels 1 vars) }
        ensures store { IfOk result IsStore }
    {
        let mut store = EqStore {
            labels: Vec::new(alloc),
            sizes: Vec::new(alloc),
            next: Vec::new(alloc),
        };
        store.grow(vars)?;
        Ok(store)
    }

    /// Adds variables, each its own label. It takes all the memory first.
    pub fn grow(&mut self, more: u32) -> Result<(), AllocError>
        requires { length self.old.view + more ≤ 2 ^ 27 }
        ensures view { OnOk result
            (self.new.view ≡ self.old.view ++ own_labels (length self.old.view + 1) more) }
        ensures err { OnErr result (self.new ≡ self.old) }
        ensures store { IsStore self.new }
    {
        self.labels.reserve(more as usize)?;
        self.sizes.reserve(more as usize)?;
        self.next.reserve(more as usize)?;
        push_own_labels(&mut self.labels, more);
        push_ones(&mut self.sizes, more);
        push_alone(&mut self.next, more);
        Ok(())
    }

    /// The label of each variable, that of variable 1 first.
    pub fn view(&self) -> &[Atom]
        ensures view { result.now ≡ self.now.view }
        ensures store { IsStore self.now }
    {
        self.labels.as_slice()
    }

    /// The atom with its variable's label in place of the variable. It takes one look at the labels.
    pub fn resolve(&self, a: Atom) -> Atom
        requires { IsAtomOf self.now.view a }
        ensures value { result ≡ resolve self.now.view a }
        ensures exact { (b : Atom) → IsAtomOf self.now.view b
            → ((result ≡ resolve self.now.view b) ↔ AlwaysEqual self.now.view a b) }
    {
        resolve(self.labels.as_slice(), a)
    }

    /// The variable whose class would get a new label by a merge. It takes constant time.
    pub fn loser(&self, a: Atom, b: Atom) -> Option<u32>
        requires first { IsAtomOf self.now.view a }
        requires second { IsAtomOf self.now.view b }
        ensures value { result ≡ loser_of self.now.view a b }
        ensures none { IsNone result
            ↔ ((resolve self.now.view a ≡ resolve self.now.view b)
            ⊎ (resolve self.now.view a ≡ not_atom (resolve self.now.view b))) }
    {
        let change = change_between(self.labels.as_slice(), self.sizes.as_slice(), a, b);
        change.map(|change| change.loser)
    }

    /// Makes two atoms equally true. Each member of the class that loses gets a new label, in the time of a
    /// walk of that class, and the rings of the two classes become one in constant time.
    pub fn merge(&mut self, a: Atom, b: Atom) -> Merged
        requires first { IsAtomOf self.old.view a }
        requires second { IsAtomOf self.old.view b }
        ensures already { (result ≡ Merged.Already)
            ↔ (resolve self.old.view a ≡ resolve self.old.view b) }
        ensures clash { (result ≡ Merged.Clash)
            ↔ (resolve self.old.view a ≡ not_atom (resolve self.old.view b)) }
        ensures stays { result ≢ Merged.Changed → self.new ≡ self.old }
        ensures view { self.new.view ≡ merged self.old.view a b }
        ensures relabels { result ≡ Merged.Changed
            → IsSomeAnd (loser_of self.old.view a b)
            (λ x. IsRelabelled self.old.view self.new.view x) }
        ensures walked { result ≡ Merged.Changed
            → IsSomeAnd (loser_of self.old.view a b) (λ x. ListsChanged self.old self.new x) }
        ensures equal { result ≡ Merged.Changed
            → resolve self.new.view a ≡ resolve self.new.view b }
        ensures equation { result ≡ Merged.Changed → AddsEquation self.old.view self.new.view a b }
        ensures doubles { result ≡ Merged.Changed → Doubles self.old.view self.new.view }
        ensures opposite { result ≡ Merged.Clash → NeverEqual self.old.view a b }
        ensures size { length self.new.view ≡ length self.old.view }
        ensures store { IsStore self.new }
    {
        let labels = self.labels.as_mut_slice();
        let sizes = self.sizes.as_mut_slice();
        merge_labels(labels, sizes, self.next.as_mut_slice(), a, b)
    }

    /// The member of the class of `label` at which its walk begins. It takes constant time.
    pub fn first(&self, label: u32) -> Option<u32>
        requires low { 1 ≤ label }
        requires high { label ≤ length self.now.view }
        requires own { IsOwnLabel self.now.view label }
        ensures value { result ≡ first_in (class_walk self.now label) }
        ensures walk { IsWalk self.now.view label (class_walk self.now label) }
        ensures member { IfSome result (IsMember self.now.view label) }
    {
        let _ = &self.next; // its use brings in what the store keeps
        Some(label)
    }

    /// The member behind `var` in the walk of its class. It takes constant time.
    pub fn after(&self, var: u32) -> Option<u32>
        requires low { 1 ≤ var }
        requires high { var ≤ length self.now.view }
        requires own { ¬ IsConstant (label_of self.now.view var) }
        ensures value { (x : ℕ) → is_of x (label_of self.now.view var) ≡ true
            → result ≡ after_in var (class_walk self.now x) }
        ensures walk { (x : ℕ) → is_of x (label_of self.now.view var) ≡ true
            → IsWalk self.now.view x (class_walk self.now x) }
        ensures member { (x : ℕ) → is_of x (label_of self.now.view var) ≡ true
            → IfSome result (IsMember self.now.view x) }
    {
        member_behind(self.labels.as_slice(), self.next.as_slice(), var)
    }
}
