//! A compilation whose cores are asked for equations.

ghost use Rattle.std.specs.Prelude.{◌≡◌, ◌⊎◌, ◌+◌, ◌++◌, ◌∷◌, ◌≤◌, ℕ, [], true};
ghost use Rattle.std.specs.Prelude.{false, length, Ok, is_some, if◌then◌else◌, IfOk, OnOk, OnErr};
ghost use Rattle.index_ring.specs.Lists.{times};
ghost use Rattle.ledger_text.specs.declared.line.Line.TheVariants.{Split, Encode};
ghost use Rattle.step_kernel.specs.Kernel.{core_at, trimmed_at, IsKernel};
ghost use Rattle.step_kernel.specs.Least.{is_compound_if, least_compound_of};
ghost use Rattle.step_kernel.specs.Steps.{step};
ghost use Rattle.fixpoint_queue.specs.Ledgers.{AddsEquations};
ghost use Rattle.fixpoint_queue.specs.Pairs.{IsCounted};
ghost use Rattle.fixpoint_queue.specs.Quiet.{IsClosed};

use crate::asking::ask_all;
use crate::id_queue::IdQueue;
use crate::marks::Marks;
use crate::oracle::Oracle;
use crate::worklist::Worklist;
use core_occurrences::Occurrences;
use ledger_text::Line;
use rule_base::Steps;
use std::alloc::{AllocError, Global};
use std::marker::{Model, PhantomData};
use std::sync::ledger::Ledger;
use step_kernel::State;

/// A state with the ledger of its lines, and a queue of the cores that may tell an equation which the store lacks to an
/// oracle whose queries are counted in `L`. For each variable it keeps which pending cores have it, so that an
/// equation queues those at the class that gets a new label, and no others.
#[derive(Drop)]
pub struct Runner<F: Oracle<L>, L: Ledger> {
    pub(crate) state: State,
    pub(crate) oracle: F,
    pub(crate) ledger: Vec<Line>,
    pub(crate) work: Worklist,
    pub(crate) counted_in: PhantomData<L>,
}

impl<F: Oracle<L>, L: Ledger> Model for Runner<F, L> {
    ghost use Rattle.fixpoint_queue.specs.Saturation.{Saturation};
    ghost use Rattle.fixpoint_queue.specs.Waits.{IsSaturation};

    ghost Value = { Saturation };

    ghost view = { λ s. record { kernel = s.state; ledger = s.ledger.items; queued = s.work.queue.queued } };

    ghost invariant = { λ s. IsSaturation F.told s.state s.work.occurs s.work.queue s.work.marks };
}

impl<F: Oracle<L>, L: Ledger> Runner<F, L> {
    /// A state whose pending cores are all queued, with no line. Where there are 2^31 - 3 ids or more, it is as
    /// if memory were wanting.
    pub fn with(alloc: Global, state: State, oracle: F) -> Result<Runner<F, L>, AllocError>
        ensures kernel { IfOk result (λ made. made.kernel ≡ state) }
        ensures ledger { IfOk result (λ made. made.ledger ≡ []) }

        // Each pending core is queued once, and nothing else is.
        ensures queued { IfOk result (λ made. (id : ℕ)
            → times id made.queued ≡ (if is_some (core_at state.cores id) then 1 else 0)) }
    {
        let ids = state.ids();
        if ids >= (1 << 31) - 3 {
            return Err(AllocError);
        }
        let mut occurs = Occurrences::with(alloc, state.vars())?;
        occurs.grow(0, ids as u32, 0)?;
        let queue = IdQueue::with(alloc, ids as u32 + 1)?;
        let mut marks = Marks::new(alloc);
        marks.grow(ids as usize)?;
        let mut work = Worklist {
            occurs,
            queue,
            marks,
        };
        work.enter_state(alloc, &state)?;
        Ok(Runner {
            state,
            oracle,
            ledger: Vec::new(alloc),
            work,
            counted_in: PhantomData,
        })
    }

    /// The state.
    pub fn state(&self) -> &State
        ensures { result.now ≡ self.now.kernel }
    {
        &self.state
    }

    /// The state and the ledger, whose lines lead to it.
    pub fn finish(self) -> (State, Vec<Line>)
        ensures state { result.0 ≡ self.kernel }
        ensures ledger { result.1.items ≡ self.ledger }
    {
        let Runner { state, ledger, .. } = self;
        (state, ledger)
    }

    /// Asks the cores of the queue until none is left, or a contradiction was found, and adds an equation to
    /// the ledger for each that is told. Where memory is wanting, the state stands for the ledger so far.
    pub fn saturate(&mut self, steps: &mut Steps<L>) -> Result<(), AllocError>
        ensures lines { AddsEquations F.told self.old.ledger self.old.kernel self.new.ledger self.new.kernel }
        ensures empty { OnOk result (self.new.kernel.bottom ≡ true ⊎ self.new.queued ≡ []) }
        ensures closed { OnOk result (self.new.kernel.bottom ≡ true ⊎ IsClosed F.told self.new.kernel) }
        ensures kernel { IsKernel self.new.kernel }

        // Three counts at most for each core that was queued, and for each pair of a pending core and one of its
        // variables that got a new label.
        ensures counted { IsCounted self.old.kernel self.old.ledger self.new.ledger
            (length self.old.queued) steps.old steps.new 0 }
    {
        ask_all(
            self.oracle,
            &mut self.state,
            &mut self.work,
            &mut self.ledger,
            steps,
        )
    }

    /// The least pending id whose core, as the store has it, is compound, where no core is queued. It takes no
    /// memory, and goes along the ids only where it did not before.
    pub fn least_compound(&self) -> Option<u64>
        requires { self.now.queued ≡ [] }
        ensures { result ≡ least_compound_of self.now.kernel }
    {
        self.work.marks.least()
    }
}
