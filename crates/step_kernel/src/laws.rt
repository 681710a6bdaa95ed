//! Laws of states and of steps, for proofs of crates above. Each function does nothing; its contract is the law.

ghost use Rattle.std.specs.Prelude.{◌≡◌, ◌↔◌, ℕ, ◌+◌, ◌≤◌, true, List, length, Ok};
ghost use Rattle.order_ints.specs.Label.{IsLater};
ghost use Rattle.core_forms.specs.declared.form.Core.{Core};
ghost use Rattle.order_ints.specs.Truth.{Valuation};
ghost use Rattle.core_forms.specs.Cores.{MeetsAll, CoresBelow, AreWellFormed, costs_of};
ghost use Rattle.ledger_text.specs.declared.line.Line.{Line};
ghost use Rattle.step_kernel.specs.Kernel.{Kernel, started, potential, most_potential, IsKernel};
ghost use Rattle.step_kernel.specs.Models.{IsModel, Keeps};
ghost use Rattle.step_kernel.specs.Steps.{step, replay};

/// A step keeps the models, and gives a state again, with a later store of no fewer variables; variables,
/// costs and literals together never rise.
pub fn step_law()
    ensures kernel { (k new : Kernel) (line : Line) → IsKernel k → step k line ≡ Ok new → IsKernel new }
    ensures models { (k new : Kernel) (line : Line) → IsKernel k → step k line ≡ Ok new → Keeps k new }
    ensures later { (k new : Kernel) (line : Line) → IsKernel k → step k line ≡ Ok new
        → (length k.view ≤ length new.view) × IsLater k.view new.view }
    ensures potential { (k new : Kernel) (line : Line) → IsKernel k → step k line ≡ Ok new
        → potential new ≤ potential k }
{}

/// So does a ledger that is replayed.
pub fn replay_law()
    ensures kernel { (k new : Kernel) (lines : List Line) → IsKernel k → replay k lines ≡ Ok new
        → IsKernel new }
    ensures models { (k new : Kernel) (lines : List Line) → IsKernel k → replay k lines ≡ Ok new → Keeps k new }
    ensures later { (k new : Kernel) (lines : List Line) → IsKernel k → replay k lines ≡ Ok new
        → (length k.view ≤ length new.view) × IsLater k.view new.view }
    ensures potential { (k new : Kernel) (lines : List Line) → IsKernel k → replay k lines ≡ Ok new
        → potential new ≤ potential k }
{}

/// At the start the models are the valuations that meet all cores.
pub fn start_law()
    ensures kernel { (vars : ℕ) (cores : List Core)
        → AreWellFormed cores → CoresBelow (vars + 1) cores → vars + costs_of cores ≤ most_potential
        → IsKernel (started vars cores) }
    ensures models { (vars : ℕ) (cores : List Core) (σ : Valuation)
        → IsModel (started vars cores) σ ↔ MeetsAll σ cores }
{}
