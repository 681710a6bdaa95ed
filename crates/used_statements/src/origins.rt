//! Where the steps of a compilation come from: a ledger's lines are made again, and each is told the lowered core that
//! it is a step at, or at a part of.

ghost use Rattle.std.specs.Prelude.{◌≡◌, Some};
ghost use Rattle.core_forms.specs.WellFormed.{IsWellFormed};
ghost use Rattle.step_kernel.specs.Kernel.{trimmed_at, IsKernel};

use bee_list::Sequence;
use core_forms::{Core, Equation, is_basic, variables};
use direct_encode::clauses;
use order_ints::{Atom, resolve};
use std::alloc::{AllocError, Global};
use step_kernel::{ApplyFault, Line, State};

/// How many variables of cores are looked at again for equations, at most.
const MOST_LOOKS: usize = 100_000_000;

/// Why a variable's label is another one: the line of the equation, and the variable that it names, 0 for a constant.
#[derive(Clone, Copy)]
pub(crate) struct Edge {
    pub(crate) line: usize,
    pub(crate) to: u32,
}

/// The clauses of an encoding, and its line.
#[derive(Drop)]
pub(crate) struct Encoded {
    pub(crate) line: usize,
    pub(crate) clauses: Vec<Sequence<Atom>>,
}

/// What is known of the lines that were made again. A root is a lowered core, by its place.
#[derive(Drop)]
pub(crate) struct Origins {
    alloc: Global,
    /// The root of each id.
    ids: Vec<usize>,
    /// The variables of each root, and those that its splits made.
    pub(crate) vars: Vec<Vec<u32>>,
    /// For each variable why its label is another one.
    pub(crate) edges: Vec<Option<Edge>>,
    /// The root of each line.
    pub(crate) lines: Vec<usize>,
    /// What was encoded.
    pub(crate) encoded: Vec<Encoded>,
    looks: usize,
}

/// The variable of an atom, 0 for a constant.
fn var_of(atom: Atom) -> u32 {
    match atom {
        Atom::Of(literal) => literal.var(),
        Atom::True | Atom::False => 0,
    }
}

/// Whether a line was made.
fn is_made(made: Result<(), ApplyFault>) -> Result<bool, AllocError> {
    match made {
        Ok(()) => Ok(true),
        Err(ApplyFault::Step(_)) => Ok(false),
        Err(ApplyFault::Memory) => Err(AllocError),
    }
}

/// The clauses of a core, where it is basic.
fn clauses_of(alloc: Global, core: &Core) -> Result<Option<Vec<Sequence<Atom>>>, AllocError>
    requires { IsWellFormed core.now }
{
    if is_basic(core) {
        Ok(Some(clauses(alloc, core)?))
    } else {
        Ok(None)
    }
}

/// The clauses of the pending core with an id, as the store has it, where there is one and it is basic.
fn clauses_at(
    alloc: Global,
    state: &State,
    id: u64,
) -> Result<Option<Vec<Sequence<Atom>>>, AllocError> {
    match state.trimmed(alloc, id)? {
        Some(core) => clauses_of(alloc, &core),
        None => Ok(None),
    }
}

impl Origins {
    /// Of lowered cores, over so many variables, before the first line.
    pub(crate) fn of(alloc: Global, count: u32, cores: &[Core]) -> Result<Origins, AllocError> {
        let mut ids = Vec::new(alloc);
        let mut vars = Vec::new(alloc);
        for place in 0..cores.len() {
            ids.push(place)?;
            vars.push(variables(alloc, &cores[place])?)?;
        }
        Ok(Origins {
            alloc,
            ids,
            vars,
            edges: vec![in alloc; None; count as usize]?,
            lines: Vec::new(alloc),
            encoded: Vec::new(alloc),
            looks: 0,
        })
    }

    /// The root of an id.
    fn root_of(&self, id: u64) -> usize {
        match self.ids.get(id.saturating_sub(1) as usize) {
            Some(root) => *root,
            None => 0,
        }
    }

    /// Counts a look at a root; whether there were too many.
    fn look(&mut self, root: usize) -> bool {
        let count = match self.vars.get(root) {
            Some(vars) => vars.len(),
            None => 0,
        };
        self.looks = self.looks.saturating_add(count);
        self.looks > MOST_LOOKS
    }

    /// Makes an equation.
    fn equate(&mut self, state: &mut State, line: &Line, e: &Equation) -> Result<bool, AllocError> {
        if !is_made(state.apply(line))? {
            return Ok(false);
        }
        let (lost, kept) = if resolve(state.view(), e.a) == e.a {
            (e.b, e.a)
        } else {
            (e.a, e.b)
        };
        let place = (var_of(lost) as usize).saturating_sub(1);
        if !state.bottom() && place < self.edges.len() {
            self.edges[place] = Some(Edge {
                line: self.lines.len(),
                to: var_of(kept),
            });
        }
        Ok(true)
    }

    /// Makes a split: the parts and the fresh variables are of its root.
    fn split(&mut self, state: &mut State, line: &Line, root: usize) -> Result<bool, AllocError> {
        let before = state.vars();
        if !is_made(state.apply(line))? {
            return Ok(false);
        }
        for _ in self.ids.len()..state.ids() as usize {
            self.ids.push(root)?;
        }
        for var in before..state.vars() {
            self.edges.push(None)?;
            if let Some(vars) = self.vars.get_mut(root) {
                vars.push(var.saturating_add(1))?;
            }
        }
        Ok(true)
    }

    /// Takes the clauses of an encoding. The step isn't made, since no other depends on it.
    fn encode(&mut self, state: &State, id: u64) -> Result<bool, AllocError> {
        match clauses_at(self.alloc, state, id)? {
            Some(clauses) => {
                let line = self.lines.len();
                self.encoded.push(Encoded { line, clauses })?;
                Ok(true)
            }
            None => Ok(false),
        }
    }

    /// Makes a line; whether it could be made.
    fn take(&mut self, state: &mut State, line: &Line) -> Result<bool, AllocError> {
        let (root, made) = match line {
            Line::Equate { id, e } => {
                let root = self.root_of(*id);
                if self.look(root) {
                    return Ok(false);
                }
                (root, self.equate(state, line, e)?)
            }
            Line::Split { id } => {
                let root = self.root_of(*id);
                (root, self.split(state, line, root)?)
            }
            Line::Encode { id } => (self.root_of(*id), self.encode(state, *id)?),
        };
        self.lines.push(root)?;
        Ok(made)
    }

    /// Makes lines; whether all could be made.
    pub(crate) fn replay(&mut self, state: &mut State, lines: &[Line]) -> Result<bool, AllocError> {
        for line in lines {
            if !self.take(state, line)? {
                return Ok(false);
            }
        }
        Ok(true)
    }

    /// Says that the lines are needed before a limit by which a variable came to its label.
    fn need_chain(&self, needed: &mut [bool], var: u32, limit: usize) {
        let mut var = var;
        for _ in 0..self.edges.len() {
            let place = (var as usize).saturating_sub(1);
            let Some(Some(edge)) = self.edges.get(place) else {
                return;
            };
            if edge.line >= limit || edge.line >= needed.len() || needed[edge.line] {
                return;
            }
            needed[edge.line] = true;
            var = edge.to;
            if var == 0 {
                return;
            }
        }
    }

    /// Says that the lines before a limit are needed by which the variables of a root came to their labels.
    fn need_root(&self, needed: &mut [bool], root: usize, limit: usize) {
        if let Some(vars) = self.vars.get(root) {
            for var in vars {
                self.need_chain(needed, *var, limit);
            }
        }
    }

    /// The roots that are needed where some lines are, from the last line back. Each root is walked once.
    pub(crate) fn needed_roots(&self, needed: &mut [bool]) -> Result<Vec<bool>, AllocError> {
        let mut roots = vec![in self.alloc; false; self.vars.len()]?;
        for line in (0..needed.len()).rev() {
            if needed[line] && line < self.lines.len() {
                let root = self.lines[line];
                if root < roots.len() && !roots[root] {
                    roots[root] = true;
                    self.need_root(needed, root, line);
                }
            }
        }
        Ok(roots)
    }
}
