//! The CNF of a state, and the least compound core.

ghost use Rattle.std.specs.Prelude.{◌≡◌, ◌↔◌, [], ◌∷◌, IfOk};
ghost use Rattle.order_ints.specs.Truth.{Valuation};
ghost use Rattle.order_ints.specs.View.{MeetsView};
ghost use Rattle.order_ints.specs.Satisfies.{Satisfies};
ghost use Rattle.order_ints.specs.Place.{InRange};
ghost use Rattle.step_kernel.specs.Kernel.{trimmed_at, pending, IsKernel};
ghost use Rattle.step_kernel.specs.Models.{IsModel};
ghost use Rattle.step_kernel.specs.CnfOf.{cnf_of};
ghost use Rattle.step_kernel.specs.Least.{is_compound_if, least_compound_of};

use crate::state::State;
use bee_list::Sequence;
use clause_order::OrderedClauses;
use core_parts::is_compound;
use order_ints::Cnf;
use std::alloc::{AllocError, Global};

/// The CNF of the empty clause alone.
fn contradiction(alloc: Global, vars: u32) -> Result<Cnf, AllocError>
    ensures { IfOk result (λ cnf. cnf ≡ record { vars = vars; clauses = [] ∷ [] }) }
{
    let clause = Sequence::from_vec(Vec::new(alloc));
    let clauses = Sequence::from_vec(vec![in alloc; clause]?);
    Ok(Cnf { vars, clauses })
}

impl State {
    /// The CNF of the clauses, each as the store has it now.
    fn made_cnf(&self) -> Result<Cnf, AllocError>
        ensures shape { IfOk result (λ cnf. cnf ≡ cnf_of self.now) }
        ensures kernel { IsKernel self.now }
    {
        let alloc = *self.cores.allocator();
        if self.bottom {
            return contradiction(alloc, self.vars());
        }
        let mut ordered = OrderedClauses::new(alloc);
        self.clauses
            .put_in_order(alloc, self.store.view(), &mut ordered)?;
        ordered.into_cnf(alloc, self.vars())
    }

    /// The clauses in order, as the store has them now, each once; at bottom the empty clause alone. Its time
    /// and memory are those of the literals.
    pub fn cnf(&self) -> Result<Cnf, AllocError>
        ensures shape { IfOk result (λ cnf. cnf ≡ cnf_of self.now) }
        ensures in_range { IfOk result InRange }

        // Where no core is pending, the valuations that meet the store satisfy it exactly where they are models.
        ensures models { IfOk result (λ cnf. pending self.now.cores ≡ []
            → (σ : Valuation) → MeetsView σ self.now.view → Satisfies σ cnf ↔ IsModel self.now σ) }
    {
        self.made_cnf()
    }

    /// Whether an id is pending and its core, as the store has it, compound.
    fn is_compound_at(&self, alloc: Global, id: u64) -> Result<bool, AllocError>
        ensures { IfOk result (λ answer. answer ≡ is_compound_if (trimmed_at self.now id)) }
    {
        match self.trimmed(alloc, id)? {
            Some(core) => Ok(is_compound(&core)),
            None => Ok(false),
        }
    }

    /// The least pending id whose core, as the store has it, is compound. It looks at each pending core up to
    /// that one.
    pub fn least_compound(&self) -> Result<Option<u64>, AllocError>
        ensures { IfOk result (λ id. id ≡ least_compound_of self.now) }
    {
        let alloc = *self.cores.allocator();
        for place in 0..self.ids() {
            if self.is_compound_at(alloc, place + 1)? {
                return Ok(Some(place + 1));
            }
        }
        Ok(None)
    }
}
