//! Splits of cores that are long lists, at their front.

ghost use Rattle.std.specs.Prelude.{◌≡◌, ◌+◌, ◌^◌, ◌<◌, ◌≤◌, ◌++◌, ◌∷◌, true, false};
ghost use Rattle.std.specs.Prelude.{length, slice_index_or, slice_set, vec_len, vec_capacity, None, Some, Ok, IfOk};
ghost use Rattle.std.specs.Prelude.{IfErr, IfSome, OnOk, OnErr, IsTrue};
ghost use Rattle.order_ints.specs.Label.{with_own_labels};
ghost use Rattle.core_forms.specs.declared.edges.Edge.{Edge};
ghost use Rattle.core_forms.specs.Stable.{IsStableCore};
ghost use Rattle.part_base.specs.Cuts.{CanCome, IsCut, longer_of, shorter_of};
ghost use Rattle.core_parts.specs.Parts.{is_compound_of, parts_at};
ghost use Rattle.ledger_text.specs.declared.line.Line.TheVariants.{Split};
ghost use Rattle.step_kernel.specs.Kernel.{Kernel, core_at, IsKernel};
ghost use Rattle.step_kernel.specs.Settled.{IsSettledWhole};
ghost use Rattle.step_kernel.specs.SplitAt.{IsStableAt, IsCutAt, most_inside};
ghost use Rattle.step_kernel.specs.Steps.{step};

use crate::cursor::{put_core, take_core, take_out};
use crate::lists::all_pending;
use crate::settling::{settle_at, unsettle_at};
use crate::state::State;
use core_forms::Core;
use core_parts::{cut, is_compound};
use equation_store::EqStore;
use order_ints::Atom;
use part_base::{Coming, Cut, drop_before, put_behind, take_behind};
use std::alloc::{AllocError, Global};

/// A list with what comes behind it, and a store with that many variables more. For want of memory both are as they
/// were.
fn lengthen(core: Core, coming: Coming, store: &mut EqStore, fresh: u32) -> Result<Core, Core>
    requires comes { CanCome coming core }
    requires room { length store.old.view + fresh ≤ 2 ^ 27 }
    ensures longer { IfOk result (λ longer. longer ≡ longer_of coming core) }
    ensures view { OnOk result (store.new.view ≡ with_own_labels store.old.view fresh) }
    ensures back { IfErr result (λ back. back ≡ core) }
    ensures stays { OnErr result (store.new ≡ store.old) }
{
    let mut core = core;
    match put_behind(&mut core, coming) {
        Ok(()) => {}
        Err(_) => return Err(core),
    }
    match store.grow(fresh) {
        Ok(()) => Ok(core),
        Err(_) => {
            take_behind(&mut core);
            Err(core)
        }
    }
}

/// Puts cores behind others, where there is room for them.
fn put_parts(
    cores: &mut Vec<Option<Core>>,
    front: Vec<Option<Core>>,
    rest: Core,
    back: Vec<Option<Core>>,
)
    requires { vec_len cores.old + vec_len front + vec_len back + 1 ≤ vec_capacity cores.old }
    ensures { cores.new.items ≡ cores.old.items ++ (front.items ++ Some rest ∷ back.items) }
{
    let (mut front, mut back) = (front, back);
    cores.append(&mut front).unwrap();
    cores.push_reserved(Some(rest));
    cores.append(&mut back).unwrap();
}

/// The greatest variable that what is left of a list may have inside, beside those that its parent had there.
fn most_inside(core: &Core, vars: u32, fresh: u32) -> u32
    requires { vars + fresh ≤ 2 ^ 27 }
    ensures { result ≡ most_inside vars fresh core.now }
{
    match core {
        Core::Sum(_, _) => vars,
        Core::Lex(_, _, _, _) => 0,
        _ => vars + fresh,
    }
}

/// What is left of a list with what comes behind it, and a store with that many variables more; and the greatest
/// variable that it may have inside. For want of memory both are as they were.
fn rest_of(
    core: Core,
    coming: Coming,
    head: Atom,
    store: &mut EqStore,
    fresh: u32,
) -> Result<(Core, u32), Core>
    requires comes { CanCome coming core }
    requires room { length store.old.view + fresh ≤ 2 ^ 27 }
    ensures rest { IfOk result (λ made. made.0 ≡ shorter_of head (longer_of coming core)) }
    ensures most { IfOk result (λ made. made.1 ≡ most_inside (length store.old.view) fresh core) }
    ensures view { OnOk result (store.new.view ≡ with_own_labels store.old.view fresh) }
    ensures back { IfErr result (λ back. back ≡ core) }
    ensures stays { OnErr result (store.new ≡ store.old) }
{
    let most = most_inside(&core, store.view().len() as u32, fresh);
    let mut rest = lengthen(core, coming, store, fresh)?;
    drop_before(&mut rest, head);
    Ok((rest, most))
}

impl State {
    /// How a compound core that is stable, with its edge settled, is cut.
    fn cut_core(&self, id: u64, core: &Core) -> Result<Option<Cut>, AllocError>
        requires there { core_at self.now.cores id ≡ Some core.now }
        requires stable { IsStableCore self.now.view core.now }
        requires compound { is_compound_of core.now ≡ true }
        ensures { IfOk result (λ made. IfSome made (λ cut.
            IsCut (length self.now.view + 1) core.now (parts_at (length self.now.view + 1) core.now) cut)) }
    {
        let alloc = *self.cores.allocator();
        cut(alloc, core, self.vars() + 1)
    }

    /// How a pending core whose edge is settled, and which is stable so, is split at its front.
    fn cut_settled(&self, id: u64) -> Result<Option<Cut>, AllocError>
        requires { IsStableAt self.now id }
        ensures { IfOk result (λ made. IfSome made (λ cut.
            (k : Kernel) (edge : Edge) → IsSettledWhole k self.now id edge → IsCutAt k id cut)) }
    {
        match self.core(id) {
            Some(core) => {
                if is_compound(core) {
                    self.cut_core(id, core)
                } else {
                    Ok(None)
                }
            }
            None => Ok(None),
        }
    }

    /// How a pending core that is stable once its edge is settled is split at its front, where it is a long list. It
    /// takes the time and the memory of what leaves and comes, and of one pass over the core where it was not seen to
    /// be stable.
    pub fn cut_of(&mut self, id: u64) -> Result<Option<Cut>, AllocError>
        ensures cut { IfOk result (λ made. IfSome made (λ cut. IsCutAt self.old id cut)) }
        ensures stays { self.new ≡ self.old }
        ensures kernel { IsKernel self.old }
    {
        let edge = match self.settle_whole(id)? {
            Some(edge) => edge,
            None => return Ok(None),
        };
        let made = self.cut_settled(id);
        self.unsettle(id, edge);
        made
    }

    /// Makes the step of a split of a core that is cut at its front: what is left of its list is made of the core
    /// itself. Where memory is wanting, the state stays as it was. It takes the time of what leaves and comes.
    pub fn split_cut(&mut self, id: u64, cut: Cut) -> Result<(), AllocError>
        requires kernel { IsKernel self.old }
        requires running { self.old.bottom ≡ false }
        requires cut { IsCutAt self.old id cut }
        ensures step { OnOk result (step self.old (Split id) ≡ Ok self.new) }
        ensures stays { OnErr result (self.new ≡ self.old) }
    {
        let alloc = *self.cores.allocator();
        let Cut {
            front,
            back,
            coming,
            head,
            fresh,
        } = cut;
        let front = all_pending(alloc, front.into_vec())?;
        let back = all_pending(alloc, back.into_vec())?;
        let more = front.len() + 1 + back.len();
        self.cores.reserve(more)?;
        self.stable.grow(more)?;
        let Some(edge) = settle_at(&mut self.cores, &mut self.stable, self.store.view(), id)? else {
            return Err(AllocError);
        };
        let Some(core) = take_core(&mut self.cores, id) else {
            return Err(AllocError);
        };
        match rest_of(core, coming, head, &mut self.store, fresh) {
            Ok((rest, most)) => {
                drop(edge);
                let there = self.cores.len() + front.len();
                put_parts(&mut self.cores, front, rest, back);
                self.first = take_out(&mut self.cores, id, self.first);
                self.stable.mark(there, most);
                Ok(())
            }
            Err(core) => {
                put_core(&mut self.cores, id, core);
                unsettle_at(&mut self.cores, id, edge);
                Err(AllocError)
            }
        }
    }

    /// Makes the step of a split at the front, where the pending core is stable once its edge is settled, and a long
    /// list, and tells whether it did so.
    pub(crate) fn try_cut(&mut self, id: u64) -> Result<bool, AllocError>
        requires kernel { IsKernel self.old }
        requires running { self.old.bottom ≡ false }
        ensures step { IfOk result (λ done. IsTrue done → step self.old (Split id) ≡ Ok self.new) }
        ensures undone { IfOk result (λ done. done ≡ false → self.new ≡ self.old) }
        ensures stays { OnErr result (self.new ≡ self.old) }
    {
        match self.cut_of(id)? {
            Some(cut) => {
                self.split_cut(id, cut)?;
                Ok(true)
            }
            None => Ok(false),
        }
    }
}
