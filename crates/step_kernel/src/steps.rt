//! The three kinds of step.

ghost use Rattle.std.specs.Prelude.{◌≡◌, ◌+◌, ◌^◌, ◌≤◌, true, length, Some, false, Ok, IfOk, OnOk};
ghost use Rattle.std.specs.Prelude.{OnErr, IfErr, Err, IsTrue};
ghost use Rattle.order_ints.specs.Label.{IsLabel};
ghost use Rattle.core_forms.specs.declared.edges.Edge.{Edge};
ghost use Rattle.core_forms.specs.Basic.{is_basic_of};
ghost use Rattle.core_forms.specs.Cost.{cost_of};
ghost use Rattle.core_forms.specs.Place.{CoreBelow};
ghost use Rattle.core_forms.specs.WellFormed.{IsWellFormed};
ghost use Rattle.ledger_text.specs.declared.line.Line.TheVariants.{Equate, Split, Encode};
ghost use Rattle.step_kernel.specs.declared.fault.StepFault.TheVariants.{NotInstance};
ghost use Rattle.step_kernel.specs.Kernel.{Kernel, trimmed_at, IsKernel};
ghost use Rattle.step_kernel.specs.Instances.{IsInstanceAt};
ghost use Rattle.step_kernel.specs.Models.{Keeps};
ghost use Rattle.core_parts.specs.Parts.{parts_at, is_compound_of};
ghost use Rattle.step_kernel.specs.Settled.{IsSettled};
ghost use Rattle.step_kernel.specs.SplitAt.{ArePartsAt};
ghost use Rattle.step_kernel.specs.Steps.{id_of, equated, divided, encoded, step_at, step, IsFaultOf};

use crate::cursor::take_out;
use crate::fault::{ApplyFault, StepFault};
use crate::lists::all_pending;
use crate::state::State;
use core_forms::{Core, Equation, is_basic};
use core_parts::{is_compound, kept_parts, parts};
use core_rules::is_instance;
use direct_encode::clauses;
use equation_store::Merged;
use ledger_text::Line;
use part_base::Parts;
use std::alloc::{AllocError, Global};

/// The id that a line names.
fn id_of(line: &Line) -> u64
    ensures { result ≡ id_of line.now }
{
    match line {
        Line::Equate { id, .. } | Line::Split { id } | Line::Encode { id } => *id,
    }
}

impl State {
    /// Makes the two atoms of an equation one, or sets bottom where they are opposite.
    fn equate(&mut self, e: &Equation)
        requires first { IsLabel self.old.view e.now.a }
        requires second { IsLabel self.old.view e.now.b }
        requires kernel { IsKernel (equated self.old e.now) }
        ensures { self.new ≡ equated self.old e.now }
    {
        self.stable.lose(self.store.loser(e.a, e.b));
        if let Merged::Clash = self.store.merge(e.a, e.b) {
            self.bottom = true;
        }
    }

    /// Takes a core, which stands here as the store has it, out of the pending ones and puts its clauses
    /// behind those that are there.
    fn encode(&mut self, alloc: Global, id: u64, core: &Core) -> Result<(), AllocError>
        requires there { trimmed_at self.old id ≡ Some core.now }
        requires basic { is_basic_of core.now ≡ true }
        requires well_formed { IsWellFormed core.now }
        requires kernel { IsKernel (encoded self.old id core.now) }
        ensures encoded { OnOk result (self.new ≡ encoded self.old id core.now) }
        ensures stays { OnErr result (self.new ≡ self.old) }
    {
        let clauses = clauses(alloc, core)?;
        self.clauses.extend(clauses.as_slice())?;
        self.first = take_out(&mut self.cores, id, self.first);
        Ok(())
    }

    /// Takes a core out of the pending ones and puts parts behind those that are there. It takes the memory
    /// first.
    fn divide(&mut self, alloc: Global, id: u64, parts: Parts) -> Result<(), AllocError>
        requires low { 1 ≤ id }
        requires high { id ≤ length self.old.cores }
        requires kernel { IsKernel (divided self.old id parts) }
        ensures divided { OnOk result (self.new ≡ divided self.old id parts) }
        ensures stays { OnErr result (self.new ≡ self.old) }
    {
        let Parts { cores, fresh } = parts;
        let mut cores = all_pending(alloc, cores.into_vec())?;
        self.cores.reserve(cores.len())?;
        self.stable.grow(cores.len())?;
        self.store.grow(fresh)?;
        self.cores.append(&mut cores).unwrap();
        self.first = take_out(&mut self.cores, id, self.first);
        Ok(())
    }

    /// Takes a core, which stands here as the store has it, out of the pending ones and puts its parts behind
    /// those that are there.
    fn split(&mut self, alloc: Global, id: u64, core: Core) -> Result<(), AllocError>
        requires there { trimmed_at self.old id ≡ Some core }
        requires compound { is_compound_of core ≡ true }
        requires well_formed { IsWellFormed core }
        requires below { CoreBelow (length self.old.view + 1) core }
        requires room { length self.old.view + 1 + cost_of core ≤ 2 ^ 27 }
        requires kernel { IsKernel (divided self.old id (parts_at (length self.old.view + 1) core)) }
        ensures divided { OnOk result
            (self.new ≡ divided self.old id (parts_at (length self.old.view + 1) core)) }
        ensures stays { OnErr result (self.new ≡ self.old) }
    {
        let parts = parts(alloc, core, self.vars() + 1)?;
        self.divide(alloc, id, parts)
    }

    /// An equation at a core, which stands here as the store has it.
    fn try_equate(
        &mut self,
        alloc: Global,
        id: u64,
        e: &Equation,
        core: &Core,
    ) -> Result<(), ApplyFault>
        requires kernel { IsKernel self.old }
        requires there { trimmed_at self.old id ≡ Some core.now }
        ensures step { OnOk result (step_at self.old (Equate id e.now) (Some core.now) ≡ Ok self.new) }
        ensures fault { IfErr result (IsFaultOf (step_at self.old (Equate id e.now) (Some core.now))) }
        ensures stays { OnErr result (self.new ≡ self.old) }
    {
        match is_instance(alloc, core, e) {
            Ok(true) => {
                self.equate(e);
                Ok(())
            }
            Ok(false) => Err(ApplyFault::Step(StepFault::NotInstance)),
            Err(_) => Err(ApplyFault::Memory),
        }
    }

    /// The splitting of a core, which stands here as the store has it.
    fn try_split(&mut self, alloc: Global, id: u64, core: Core) -> Result<(), ApplyFault>
        requires kernel { IsKernel self.old }
        requires there { trimmed_at self.old id ≡ Some core }
        ensures step { OnOk result (step_at self.old (Split id) (Some core) ≡ Ok self.new) }
        ensures fault { IfErr result (IsFaultOf (step_at self.old (Split id) (Some core))) }
        ensures stays { OnErr result (self.new ≡ self.old) }
    {
        if !is_compound(&core) {
            return Err(ApplyFault::Step(StepFault::NotCompound));
        }
        match self.split(alloc, id, core) {
            Ok(()) => Ok(()),
            Err(_) => Err(ApplyFault::Memory),
        }
    }

    /// The encoding of a core, which stands here as the store has it.
    fn try_encode(&mut self, alloc: Global, id: u64, core: &Core) -> Result<(), ApplyFault>
        requires kernel { IsKernel self.old }
        requires there { trimmed_at self.old id ≡ Some core.now }
        ensures step { OnOk result (step_at self.old (Encode id) (Some core.now) ≡ Ok self.new) }
        ensures fault { IfErr result (IsFaultOf (step_at self.old (Encode id) (Some core.now))) }
        ensures stays { OnErr result (self.new ≡ self.old) }
    {
        if !is_basic(core) {
            return Err(ApplyFault::Step(StepFault::NotBasic));
        }
        match self.encode(alloc, id, core) {
            Ok(()) => Ok(()),
            Err(_) => Err(ApplyFault::Memory),
        }
    }

    /// A line at its core, which stands here as the store has it.
    fn apply_at(&mut self, alloc: Global, line: &Line, core: Core) -> Result<(), ApplyFault>
        requires kernel { IsKernel self.old }
        requires there { trimmed_at self.old (id_of line.now) ≡ Some core }
        ensures step { OnOk result (step_at self.old line.now (Some core) ≡ Ok self.new) }
        ensures fault { IfErr result (IsFaultOf (step_at self.old line.now (Some core))) }
        ensures stays { OnErr result (self.new ≡ self.old) }
    {
        match line {
            Line::Equate { id, e } => self.try_equate(alloc, *id, e, &core),
            Line::Split { id } => self.try_split(alloc, *id, core),
            Line::Encode { id } => self.try_encode(alloc, *id, &core),
        }
    }

    /// The step of a line at its core, trimmed.
    fn make_trimmed(&mut self, line: &Line) -> Result<(), ApplyFault>
        requires running { self.old.bottom ≡ false }
        ensures step { OnOk result (step self.old line.now ≡ Ok self.new) }
        ensures fault { IfErr result (IsFaultOf (step self.old line.now)) }
        ensures stays { OnErr result (self.new ≡ self.old) }
        ensures kernel { IsKernel self.old }
    {
        let alloc = *self.cores.allocator();
        let id = id_of(line);
        match self.trimmed(alloc, id) {
            Ok(Some(core)) => self.apply_at(alloc, line, core),
            Ok(None) => Err(ApplyFault::Step(StepFault::NoSuch(id))),
            Err(_) => Err(ApplyFault::Memory),
        }
    }

    /// The step of a split, at the front where the core is stable and a long list.
    fn make_split(&mut self, id: u64) -> Result<(), ApplyFault>
        requires kernel { IsKernel self.old }
        requires running { self.old.bottom ≡ false }
        ensures step { OnOk result (step self.old (Split id) ≡ Ok self.new) }
        ensures fault { IfErr result (IsFaultOf (step self.old (Split id))) }
        ensures stays { OnErr result (self.new ≡ self.old) }
    {
        match self.try_cut(id) {
            Ok(true) => Ok(()),
            Ok(false) => self.make_trimmed(&Line::Split { id }),
            Err(_) => Err(ApplyFault::Memory),
        }
    }

    /// Whether an equation is an instance at the pending core with an id whose edge is settled.
    fn is_told(&self, id: u64, e: &Equation) -> Result<bool, AllocError>
        ensures told { IfOk result (λ told. (k : Kernel) (edge : Edge) → IsSettled k self.now id edge → IsKernel k
            → told ≡ true → IsInstanceAt k id e.now) }
        ensures not_told { IfOk result (λ told. (k : Kernel) (edge : Edge) → IsSettled k self.now id edge
            → k.bottom ≡ false → told ≡ false → step k (Equate id e.now) ≡ Err NotInstance) }
    {
        let alloc = *self.cores.allocator();
        match self.core(id) {
            Some(core) => is_instance(alloc, core, e),
            None => Ok(false),
        }
    }

    /// The step of an equation at the pending core with an id, where the core stands as the store has it but for its
    /// edge; else nothing is made.
    fn try_settled(&mut self, id: u64, e: &Equation) -> Result<bool, ApplyFault>
        requires kernel { IsKernel self.old }
        requires running { self.old.bottom ≡ false }
        ensures step { IfOk result (λ done. IsTrue done → step self.old (Equate id e.now) ≡ Ok self.new) }
        ensures undone { IfOk result (λ done. done ≡ false → self.new ≡ self.old) }
        ensures fault { IfErr result (IsFaultOf (step self.old (Equate id e.now))) }
        ensures stays { OnErr result (self.new ≡ self.old) }
    {
        let edge = match self.settle(id) {
            Ok(Some(edge)) => edge,
            Ok(None) => return Ok(false),
            Err(_) => return Err(ApplyFault::Memory),
        };
        let told = self.is_told(id, e);
        self.unsettle(id, edge);
        match told {
            Ok(true) => {
                self.equate_told(id, e);
                Ok(true)
            }
            Ok(false) => Err(ApplyFault::Step(StepFault::NotInstance)),
            Err(_) => Err(ApplyFault::Memory),
        }
    }

    /// The step of an equation.
    fn make_equate(&mut self, id: u64, e: &Equation) -> Result<(), ApplyFault>
        requires kernel { IsKernel self.old }
        requires running { self.old.bottom ≡ false }
        ensures step { OnOk result (step self.old (Equate id e.now) ≡ Ok self.new) }
        ensures fault { IfErr result (IsFaultOf (step self.old (Equate id e.now))) }
        ensures stays { OnErr result (self.new ≡ self.old) }
    {
        if self.try_settled(id, e)? {
            return Ok(());
        }
        self.make_trimmed(&Line::Equate { id, e: *e })
    }

    /// The step of a line.
    fn make_step(&mut self, line: &Line) -> Result<(), ApplyFault>
        ensures step { OnOk result (step self.old line.now ≡ Ok self.new) }
        ensures fault { IfErr result (IsFaultOf (step self.old line.now)) }
        ensures stays { OnErr result (self.new ≡ self.old) }
        ensures kernel { IsKernel self.old }
    {
        if self.bottom {
            return Err(ApplyFault::Step(StepFault::AfterBottom));
        }
        match line {
            Line::Split { id } => self.make_split(*id),
            Line::Equate { id, e } => self.make_equate(*id, e),
            Line::Encode { .. } => self.make_trimmed(line),
        }
    }

    /// Makes the step of a line. The line's core is trimmed once; a long list that is stable is split at its front
    /// without that. An equation costs the size of its core and a walk of the class that loses, a split its parts, an
    /// encoding its clauses. Where the line is no step, or memory is wanting, the state stays as it was.
    pub fn apply(&mut self, line: &Line) -> Result<(), ApplyFault>
        ensures step { OnOk result (step self.old line.now ≡ Ok self.new) }
        ensures fault { IfErr result (IsFaultOf (step self.old line.now)) }
        ensures stays { OnErr result (self.new ≡ self.old) }

        // The models stay, but for fresh variables.
        ensures models { OnOk result (Keeps self.old self.new) }
        ensures kernel { IsKernel self.new }
    {
        self.make_step(line)
    }

    /// Makes the step of an equation that is known to be an instance at its core, as the store has it. It
    /// looks at no core and takes no memory.
    pub fn equate_told(&mut self, id: u64, e: &Equation)
        requires kernel { IsKernel self.old }
        requires running { self.old.bottom ≡ false }
        requires instance { IsInstanceAt self.old id e.now }
        ensures step { step self.old (Equate id e.now) ≡ Ok self.new }
        ensures equated { self.new ≡ equated self.old e.now }
    {
        self.equate(e);
    }

    /// The parts of a compound core, which is used up. They are what a split makes of it.
    pub fn parts_of(&self, id: u64, core: Core) -> Result<Parts, AllocError>
        requires there { trimmed_at self.now id ≡ Some core }
        requires compound { is_compound_of core ≡ true }
        ensures { IfOk result (λ parts. parts ≡ parts_at (length self.now.view + 1) core) }
    {
        let alloc = *self.cores.allocator();
        parts(alloc, core, self.vars() + 1)
    }

    /// The parts of a compound core that is lent, with copies of its lists. They are what a split makes of it.
    pub fn parts_of_lent(&self, id: u64, core: &Core) -> Result<Parts, AllocError>
        requires there { trimmed_at self.now id ≡ Some core.now }
        requires compound { is_compound_of core.now ≡ true }
        ensures { IfOk result (λ parts. parts ≡ parts_at (length self.now.view + 1) core.now) }
    {
        let alloc = *self.cores.allocator();
        kept_parts(alloc, core, self.vars() + 1)
    }

    /// Makes the step of a split whose parts are known. Where memory is wanting, the state stays as it was.
    pub fn split_into(&mut self, id: u64, parts: Parts) -> Result<(), AllocError>
        requires kernel { IsKernel self.old }
        requires running { self.old.bottom ≡ false }
        requires parts { ArePartsAt self.old id parts }
        ensures step { OnOk result (step self.old (Split id) ≡ Ok self.new) }
        ensures stays { OnErr result (self.new ≡ self.old) }
    {
        let alloc = *self.cores.allocator();
        self.divide(alloc, id, parts)
    }
}
