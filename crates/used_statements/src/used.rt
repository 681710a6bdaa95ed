//! From what a refutation needs to statements.

ghost use Rattle.model_meaning.specs.WellTyped.{WellTyped};
ghost use Rattle.model_meaning.specs.Limits.{InLimits};

use crate::core_counts::core_count;
use crate::origins::{Encoded, Origins};
use crate::refutation::used_clauses;
use bee_list::Sequence;
use clause_order::OrderedClauses;
use model_items::{Item, Items};
use model_lower::{Lowered, lower};
use model_meaning::{Kind, Model, What};
use order_ints::{Atom, Cnf, MapValue, ordered_clause};
use proof_check::ProofLine;
use statement_lower::atom_of;
use std::alloc::{AllocError, Global};
use step_kernel::{Line, State};

/// A statement that declares its integer: its place, and the variable of its Boolean, 0 where that is a constant. It
/// has no core.
#[derive(Drop)]
struct Definition {
    place: usize,
    var: u32,
}

/// Of which statement each lowered core is, by the statement's place; and the statements without a core.
#[derive(Drop)]
struct Stated {
    cores: Vec<Option<usize>>,
    definitions: Vec<Definition>,
}

/// The compilation of a model before its first step.
#[derive(Drop)]
struct Start {
    stated: Stated,
    origins: Origins,
    state: State,
}

impl Stated {
    /// Takes in a statement that declares its integer.
    fn define(
        &mut self,
        entries: &[MapValue],
        place: usize,
        what: &What,
    ) -> Result<(), AllocError> {
        if let What::BoolToInt { truth, .. } = what {
            let var = match atom_of(entries, *truth) {
                Atom::Of(literal) => literal.var(),
                Atom::True | Atom::False => 0,
            };
            self.definitions.push(Definition { place, var })?;
        }
        Ok(())
    }

    /// Takes in an item; how many statements there are behind it.
    fn take(
        &mut self,
        entries: &[MapValue],
        place: usize,
        item: &Item<'_>,
    ) -> Result<usize, AllocError> {
        match item {
            Item::Declaration(decl) => {
                match decl.kind {
                    Kind::Bool => {}
                    Kind::Range { .. } | Kind::Listed { .. } => self.cores.push(None)?,
                }
                Ok(place)
            }
            Item::Statement(stmt) => {
                for _ in 0..core_count(entries, &stmt.what) {
                    self.cores.push(Some(place))?;
                }
                Ok(place.saturating_add(1))
            }
            Item::Definition(_, stmt) => {
                self.define(entries, place, &stmt.what)?;
                Ok(place.saturating_add(1))
            }
        }
    }

    /// Those of a model, whose names stand for these entries.
    fn of(alloc: Global, model: &Model, entries: &[MapValue]) -> Result<Stated, AllocError> {
        let mut stated = Stated {
            cores: Vec::new(alloc),
            definitions: Vec::new(alloc),
        };
        let mut items = Items::of(model.decls.as_slice(), model.stmts.as_slice());
        let mut place = 0;
        for _ in 0..model.decls.len().saturating_add(model.stmts.len()) {
            if let Some(item) = items.next_item() {
                place = stated.take(entries, place, &item)?;
            }
        }
        Ok(stated)
    }
}

/// The start of a model's compilation, where it is known of which statement each core is.
fn begin(alloc: Global, model: &Model) -> Result<Option<Start>, AllocError>
    requires typed { WellTyped model.now }
    requires limits { InLimits model.now }
{
    match lower(alloc, model) {
        Err(_) => Err(AllocError),
        Ok(lowered) => {
            let Lowered { vars, map, cores } = lowered;
            let stated = Stated::of(alloc, model, map.entries.as_slice())?;
            if stated.cores.len() != cores.len() {
                return Ok(None);
            }
            let origins = Origins::of(alloc, vars, cores.as_slice())?;
            let state = State::start(alloc, vars, cores.into_vec())?;
            Ok(Some(Start {
                stated,
                origins,
                state,
            }))
        }
    }
}

/// Adds the clauses of an encoding, as a view has them.
fn add_clauses(
    alloc: Global,
    view: &[Atom],
    clauses: &[Sequence<Atom>],
    ordered: &mut OrderedClauses,
) -> Result<(), AllocError> {
    for clause in clauses {
        ordered.add(alloc, view, clause.as_slice())?;
    }
    Ok(())
}

/// The CNF of encodings.
fn cnf_of(alloc: Global, state: &State, encoded: &[Encoded]) -> Result<Cnf, AllocError> {
    let mut ordered = OrderedClauses::new(alloc);
    for one in encoded {
        add_clauses(alloc, state.view(), one.clauses.as_slice(), &mut ordered)?;
    }
    ordered.into_cnf(alloc, state.vars())
}

/// Whether a clause, as a view has it, is the one at a place.
fn stands_at(
    alloc: Global,
    view: &[Atom],
    clause: &[Atom],
    cnf: &Cnf,
    place: usize,
) -> Result<bool, AllocError> {
    let Some(literals) = ordered_clause(alloc, view, clause)? else {
        return Ok(false);
    };
    match cnf.clauses.as_slice().get(place) {
        Some(next) => Ok(*next == literals),
        None => Ok(false),
    }
}

/// Marks a place.
fn mark(marks: &mut [bool], place: usize) {
    if place < marks.len() {
        marks[place] = true;
    }
}

/// Says that the encodings are needed whose clauses are used. The clauses of a CNF are those of its encodings, in their
/// order, each where it stands first.
fn need_encodings(
    alloc: Global,
    view: &[Atom],
    encoded: &[Encoded],
    cnf: &Cnf,
    used: &[bool],
    needed: &mut [bool],
) -> Result<(), AllocError> {
    let mut place: usize = 0;
    for one in encoded {
        for clause in one.clauses.as_slice() {
            if stands_at(alloc, view, clause.as_slice(), cnf, place)? {
                if place < used.len() && used[place] {
                    mark(needed, one.line);
                }
                place = place.saturating_add(1);
            }
        }
    }
    Ok(())
}

/// The place of the empty clause.
fn empty_clause(cnf: &Cnf) -> Option<usize> {
    let clauses = cnf.clauses.as_slice();
    for place in 0..clauses.len() {
        if clauses[place].is_empty() {
            return Some(place);
        }
    }
    None
}

/// The clauses of a CNF that are used: the empty one, or those of the derivation.
fn clauses_used(alloc: Global, cnf: &Cnf, proof: &[ProofLine]) -> Result<Vec<bool>, AllocError> {
    let mut used = used_clauses(alloc, proof, cnf.clauses.len())?;
    if let Some(place) = empty_clause(cnf) {
        if place < used.len() {
            used[place] = true;
        }
    }
    Ok(used)
}

/// The lines by which a contradiction came up: the last one, or the encodings whose clauses are used.
fn needed_lines(
    alloc: Global,
    start: &Start,
    proof: &[ProofLine],
) -> Result<Vec<bool>, AllocError> {
    let count = start.origins.lines.len();
    let mut needed = vec![in alloc; false; count]?;
    if start.state.bottom() {
        mark(needed.as_mut_slice(), count.saturating_sub(1));
        return Ok(needed);
    }
    let encoded = start.origins.encoded.as_slice();
    let cnf = cnf_of(alloc, &start.state, encoded)?;
    let used = clauses_used(alloc, &cnf, proof)?;
    need_encodings(
        alloc,
        start.state.view(),
        encoded,
        &cnf,
        used.as_slice(),
        needed.as_mut_slice(),
    )?;
    Ok(needed)
}

/// Which variables occur in roots that are needed.
fn touched(alloc: Global, start: &Start, roots: &[bool]) -> Result<Vec<bool>, AllocError> {
    let mut touched = vec![in alloc; false; start.origins.edges.len()]?;
    for root in 0..roots.len() {
        if roots[root] {
            if let Some(vars) = start.origins.vars.get(root) {
                for var in vars {
                    mark(touched.as_mut_slice(), var.saturating_sub(1) as usize);
                }
            }
        }
    }
    Ok(touched)
}

/// The statements of which a core is needed, and those without a core whose Boolean occurs in one.
fn statements_of(
    alloc: Global,
    start: &Start,
    roots: &[bool],
    count: usize,
) -> Result<Vec<bool>, AllocError> {
    let mut used = vec![in alloc; false; count]?;
    for root in 0..roots.len() {
        if let Some(Some(place)) = start.stated.cores.get(root) {
            if roots[root] {
                mark(used.as_mut_slice(), *place);
            }
        }
    }
    let touched = touched(alloc, start, roots)?;
    for definition in start.stated.definitions.as_slice() {
        let var = definition.var.saturating_sub(1) as usize;
        if definition.var == 0 || (var < touched.len() && touched[var]) {
            mark(used.as_mut_slice(), definition.place);
        }
    }
    Ok(used)
}

/// Which statements of a model its refutation used, by their places; none where that can't be told. The ledger is that
/// of the model's compilation, and the derivation one of the empty clause from its last clauses, or of anything where
/// the ledger ends in a contradiction.
///
/// The steps are made again, which takes about as long as the compilation. It can't be told where a step can't be made,
/// or where too many equations are told of long cores.
pub fn used_statements(
    alloc: Global,
    model: &Model,
    ledger: &[Line],
    proof: &[ProofLine],
) -> Result<Option<Vec<bool>>, AllocError>
    requires typed { WellTyped model.now }
    requires limits { InLimits model.now }
{
    let Some(mut start) = begin(alloc, model)? else {
        return Ok(None);
    };
    if !start.origins.replay(&mut start.state, ledger)? {
        return Ok(None);
    }
    let mut needed = needed_lines(alloc, &start, proof)?;
    let roots = start.origins.needed_roots(needed.as_mut_slice())?;
    let used = statements_of(alloc, &start, roots.as_slice(), model.stmts.len())?;
    Ok(Some(used))
}
