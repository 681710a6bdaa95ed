//! Reads a CNF.

ghost use Rattle.std.specs.Prelude.{◌≡◌, ℕ, Some, [], map, filter_map, IfOk, IfErr};
ghost use Rattle.order_ints.specs.declared.cnf.Cnf.{Cnf};
ghost use Rattle.order_ints.specs.declared.atom.Atom.TheVariants.{Of};
ghost use Rattle.order_ints.specs.OrderedClauses.{ordered_clause};
ghost use Rattle.sat_front.specs.CnfLines.{in_order, IsCnfText, CnfFails};
ghost use Rattle.sat_front.specs.Faults.{CnfFaultOf, IsReadAs, FailsAt};

use crate::draft::CnfDraft;
use crate::fault::CnfFault;
use crate::literals::atoms_of;
use crate::open_lines::read_open_lines;
use bee_list::Sequence;
use clause_order::OrderedClauses;
use line_texts::TextEnd;
use order_ints::{Cnf, Lit};
use std::alloc::{AllocError, Global};

/// The clauses, each put in order.
fn ordered(alloc: Global, clauses: Vec<Sequence<Lit>>) -> Result<OrderedClauses, AllocError>
    ensures { IfOk result (λ kept. kept ≡ filter_map (ordered_clause []) (map (map Of) clauses.items)) }
{
    let mut kept = OrderedClauses::new(alloc);
    for clause in clauses {
        let atoms = atoms_of(alloc, clause.as_slice())?;
        kept.add(alloc, &[], atoms.as_slice())?;
    }
    Ok(kept)
}

/// The CNF of clauses.
fn cnf_of(alloc: Global, vars: u32, clauses: Vec<Sequence<Lit>>) -> Result<Cnf, AllocError>
    ensures { IfOk result (λ cnf. (cnf.vars ≡ vars) × (cnf.clauses ≡ in_order clauses.items)) }
{
    let kept = ordered(alloc, clauses)?;
    kept.into_cnf(alloc, vars)
}

/// The CNF that a text lists, or the first line that doesn't fit.
fn read_text(alloc: Global, text: &[u8]) -> Result<Cnf, CnfFault>
    ensures read { IfOk result (λ cnf. IsCnfText text.now cnf) }
    ensures fault { IfErr result (CnfFaultOf text.now) }
{
    let mut draft = CnfDraft::new(alloc);
    match read_open_lines(alloc, text, &(), &mut draft)? {
        TextEnd::Whole => {
            let (vars, clauses) = draft.finish();
            Ok(cnf_of(alloc, vars, clauses)?)
        }
        TextEnd::Misfit(line, _) => Err(CnfFault::Form(line)),
        TextEnd::Missing(line) => Err(CnfFault::Form(line)),
    }
}

/// The CNF that a text lists, its clauses put in order, or the first line that doesn't fit. One pass over the text; the
/// clauses are held twice while they are put in order.
pub fn read_cnf(alloc: Global, text: &[u8]) -> Result<Cnf, CnfFault>
    ensures read { IfOk result (λ cnf. IsCnfText text.now cnf) }
    ensures fault { IfErr result (CnfFaultOf text.now) }
    ensures complete { (cnf : Cnf) → IsCnfText text.now cnf → IsReadAs result cnf }
    ensures exact { (line : ℕ) → CnfFails text.now line → FailsAt result line }
{
    read_text(alloc, text)
}
