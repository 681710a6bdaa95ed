//! The equations of all rules.

ghost use Rattle.std.specs.Prelude.{◌≡◌, ◌||◌, IfOk};
ghost use Rattle.core_forms.specs.WellFormed.{IsWellFormed};
ghost use Rattle.equi_rules.specs.Instances.{is_instance_of as is_equi_instance};
ghost use Rattle.arith_rules.specs.Instances.{is_instance_of as is_arith_instance};
ghost use Rattle.table_rules.specs.Instances.{is_instance_of as is_table_instance};
ghost use Rattle.core_rules.specs.Instances.{is_instance_at};

use core_forms::{Core, Equation};
use std::alloc::{AllocError, Global};

/// Whether an equation is one that a rule of these crates, which take no memory, states of a core.
fn is_stated(core: &Core, e: &Equation) -> bool
    requires { IsWellFormed core.now }
    ensures { result ≡ (is_equi_instance core.now e.now
        || (is_arith_instance core.now e.now || is_table_instance core.now e.now)) }
{
    equi_rules::is_instance(core, e)
        || arith_rules::is_instance(core, e)
        || table_rules::is_instance(core, e)
}

/// Whether an equation is one that a rule states of a core, of two different atoms.
pub fn is_instance(alloc: Global, core: &Core, e: &Equation) -> Result<bool, AllocError>
    requires { IsWellFormed core.now }
    ensures { IfOk result (λ told. told ≡ is_instance_at core.now e.now) }
{
    if is_stated(core, e) {
        return Ok(true);
    }
    alldiff_rules::is_instance(alloc, core, e)
}
