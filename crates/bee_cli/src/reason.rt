//! Why a line of a second text is refused, in words.

use certify_mode::RefusedFinding;
use conflict_check::RefusedConflict;
use decode_mode::RefusedValues;
use drup_mode::RefusedProof;
use ledger_check::Why;
use list_check::RefusedList;
use proof_check::ProofFault;
use resume_mode::RefusedWish;
use std::cell::Cell;
use std::fmt;
use std::fmt::Display;
use step_kernel::StepFault;

/// Where each mode that refuses a line of a second text puts what stands against it.
#[derive(Drop)]
pub(crate) struct Reasons {
    /// For a line of an answer.
    pub(crate) answer: Cell<Option<Why>>,
    /// For a line of a solver's values.
    pub(crate) values: Cell<Option<RefusedValues>>,
    /// For a line of a proof.
    pub(crate) proof: Cell<Option<RefusedProof>>,
    /// For a line of what another solver found.
    pub(crate) finding: Cell<Option<RefusedFinding>>,
    /// For a line of a list of solutions.
    pub(crate) list: Cell<Option<RefusedList>>,
    /// For a line of a core.
    pub(crate) core: Cell<Option<RefusedConflict>>,
    /// For a line of values to begin with.
    pub(crate) wish: Cell<Option<RefusedWish>>,
}

impl Reasons {
    /// No line is refused.
    pub(crate) fn none() -> Reasons {
        Reasons {
            answer: Cell::new(None),
            values: Cell::new(None),
            proof: Cell::new(None),
            finding: Cell::new(None),
            list: Cell::new(None),
            core: Cell::new(None),
            wish: Cell::new(None),
        }
    }

    /// Why the line is refused that is, if one is.
    pub(crate) fn told(&self) -> Option<Reason> {
        if let Some(why) = self.answer.get() {
            return Some(Reason::Answer(why));
        }
        if let Some(fault) = self.values.get() {
            return Some(Reason::Values(fault));
        }
        if let Some(fault) = self.proof.get() {
            return Some(Reason::Proof(fault));
        }
        if let Some(fault) = self.finding.get() {
            return Some(Reason::Finding(fault));
        }
        if let Some(fault) = self.list.get() {
            return Some(Reason::List(fault));
        }
        if let Some(fault) = self.core.get() {
            return Some(Reason::Core(fault));
        }
        if let Some(RefusedWish) = self.wish.get() {
            return Some(Reason::Wish);
        }
        None
    }
}

/// Why a line is refused, by the mode that refuses it.
#[derive(Clone, Copy)]
pub enum Reason {
    /// What stands against a line of an answer.
    Answer(Why),
    /// What stands against a line of a solver's values.
    Values(RefusedValues),
    /// What stands against a line of a proof.
    Proof(RefusedProof),
    /// What stands against a line of what another solver found.
    Finding(RefusedFinding),
    /// What stands against a line of a list of solutions.
    List(RefusedList),
    /// What stands against a line of a core.
    Core(RefusedConflict),
    /// A line of values to begin with tells none of a declared name, or one that isn't in its domain.
    Wish,
}

impl Display for Reason {
    fn fmt<W: fmt::Write>(&self, f: &mut fmt::Formatter<W>) -> fmt::Result {
        match self {
            Reason::Answer(why) => say_why(*why, f),
            Reason::Values(fault) => say_values(*fault, f),
            Reason::Proof(fault) => say_clauses(*fault, f),
            Reason::Finding(fault) => say_finding(*fault, f),
            Reason::List(fault) => say_list(*fault, f),
            Reason::Core(fault) => say_core(*fault, f),
            Reason::Wish => write!(f, "no value that a declared name can have"),
        }
    }
}

/// Says what stands against a line of an answer.
fn say_why<W: fmt::Write>(why: Why, f: &mut fmt::Formatter<W>) -> fmt::Result {
    match why {
        Why::Shape => write!(f, "not the next line of an answer"),
        Why::Goal => write!(f, "not for this goal"),
        Why::Value => write!(f, "not in the domain of the name"),
        Why::Statement(number) => write!(f, "statement {number} does not hold"),
        Why::Objective => write!(f, "the objectives have other values"),
        Why::Step(fault) => say_step(fault, f),
        Why::Proof(fault) => say_proof(fault, f),
        Why::Open => write!(f, "not shown by the lines before"),
    }
}

/// Says why a line of a ledger is no step.
fn say_step<W: fmt::Write>(fault: StepFault, f: &mut fmt::Formatter<W>) -> fmt::Result {
    match fault {
        StepFault::AfterBottom => write!(f, "a step behind a contradiction"),
        StepFault::NoSuch(id) => write!(f, "no pending core {id}"),
        StepFault::NotInstance => write!(f, "no rule states this equation of the core"),
        StepFault::NotCompound => write!(f, "the core is not compound"),
        StepFault::NotBasic => write!(f, "the core is not basic"),
    }
}

/// Says why a line of a derivation is no step.
fn say_proof<W: fmt::Write>(fault: ProofFault, f: &mut fmt::Formatter<W>) -> fmt::Result {
    match fault {
        ProofFault::Id => write!(f, "the id is not above those before"),
        ProofFault::Lit(place) => write!(
            f,
            "literal {place} has a variable twice, or none of the clauses"
        ),
        ProofFault::Rat => write!(f, "a hint is negative"),
        ProofFault::Absent(id) => write!(f, "no clause {id} is there"),
        ProofFault::Hint(place) => write!(f, "hint {place} is not unit"),
    }
}

/// Says what stands against a line of values.
fn say_values<W: fmt::Write>(fault: RefusedValues, f: &mut fmt::Formatter<W>) -> fmt::Result {
    match fault {
        RefusedValues::Misfit => write!(f, "not the next line of values that satisfy the clauses"),
        RefusedValues::Missing => write!(f, "the values do not end"),
    }
}

/// Says what stands against a line of a proof by unit propagation.
fn say_clauses<W: fmt::Write>(fault: RefusedProof, f: &mut fmt::Formatter<W>) -> fmt::Result {
    match fault {
        RefusedProof::Unshown => write!(f, "no clause that unit propagation shows"),
        RefusedProof::Missing => write!(f, "the empty clause is not shown"),
    }
}

/// Says what stands against a line of what another solver found.
fn say_finding<W: fmt::Write>(fault: RefusedFinding, f: &mut fmt::Formatter<W>) -> fmt::Result {
    match fault {
        RefusedFinding::Misfit => write!(
            f,
            "not the next line of values that satisfy the clauses, nor of a refutation"
        ),
        RefusedFinding::Missing => write!(f, "nothing is shown"),
    }
}

/// Says what stands against a line of a list of solutions.
fn say_list<W: fmt::Write>(fault: RefusedList, f: &mut fmt::Formatter<W>) -> fmt::Result {
    match fault {
        RefusedList::Misfit => write!(f, "not the next line of a list"),
        RefusedList::Value => write!(f, "no value of the next name"),
        RefusedList::Statement(number) => write!(f, "statement {number} does not hold"),
        RefusedList::Repeated => write!(f, "the solution before is listed twice"),
        RefusedList::Step => write!(f, "no step that is due"),
        RefusedList::Derived => write!(f, "no line of the derivation"),
        RefusedList::Open => write!(f, "not shown by the lines before"),
        RefusedList::Missing => write!(f, "the list does not end"),
    }
}

/// Says what stands against a line of a core.
fn say_core<W: fmt::Write>(fault: RefusedConflict, f: &mut fmt::Formatter<W>) -> fmt::Result {
    match fault {
        RefusedConflict::Misfit => write!(f, "not the next line of a core"),
        RefusedConflict::Named => write!(f, "no further statement of the model"),
        RefusedConflict::Value => write!(f, "no value of the next name"),
        RefusedConflict::Statement(number) => write!(f, "statement {number} does not hold"),
        RefusedConflict::Step => write!(f, "no step that is due"),
        RefusedConflict::Derived => write!(f, "no line of the derivation"),
        RefusedConflict::Open => write!(f, "not shown by the lines before"),
        RefusedConflict::Missing => write!(f, "the core does not end"),
    }
}
