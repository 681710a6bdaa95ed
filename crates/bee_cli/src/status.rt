//! How a run ends.

ghost use Rattle.std.specs.Prelude.{◌≡◌, ◌≢◌};
ghost use Rattle.bee_cli.specs.Statuses.{status_of, outcome_status, model_fault, cnf_fault, clauses_fault};
ghost use Rattle.bee_cli.specs.Statuses.{certify_fault, bound_fault};

use bound_mode::BoundFault;
use certify_mode::CertifyFault;
use model_texts::ModelFault;
use sat_front::CnfTextFault;
use text_modes::{End, Outcome};

/// How a run ends.
#[derive(Drop)]
pub enum Status {
    /// The whole text was written and flushed.
    Done,
    /// The second text is refused: the first line that fails, counted from 1. A line on the sink says so.
    Refused(u64),
    /// The words aren't the command's.
    Usage,
    /// The input was read and is no model that is compiled, no compiled text, or no text of a CNF.
    Model(ModelFault),
    /// The model has no objective that is bounded.
    NoObjective,
    /// The model has two objectives, and what another solver found is imported for one at most.
    TwoObjectives,
    /// The input could not be read.
    Read,
    /// The text could not be written whole.
    Write,
    /// Memory is wanting.
    Memory,
    /// An answer was sought for so long as this number says, and the text that was written tells so.
    Unknown(u64),
}

/// The status of a run that wrote its text.
fn outcome_status(outcome: Outcome) -> Status
    ensures status { result ≡ outcome_status outcome }
    ensures built { result ≢ Status.Usage }
{
    match outcome {
        Outcome::Done => Status::Done,
        Outcome::Refused(line) => Status::Refused(line),
        Outcome::Unknown(count) => Status::Unknown(count),
    }
}

/// The status of a run over the text of a model.
pub(crate) fn model_status(end: End<ModelFault>) -> Status
    ensures status { result ≡ status_of model_fault end }
    ensures built { result ≢ Status.Usage }
{
    match end {
        End::Wrote(outcome) => outcome_status(outcome),
        End::Fault(fault) => Status::Model(fault),
        End::Read => Status::Read,
        End::Write => Status::Write,
        End::Memory => Status::Memory,
    }
}

/// The status of a run over a compiled text, whose fault is a line.
pub(crate) fn cnf_status(end: End<u64>) -> Status
    ensures status { result ≡ status_of cnf_fault end }
    ensures built { result ≢ Status.Usage }
{
    match end {
        End::Wrote(outcome) => outcome_status(outcome),
        End::Fault(line) => Status::Model(ModelFault::Cnf(line)),
        End::Read => Status::Read,
        End::Write => Status::Write,
        End::Memory => Status::Memory,
    }
}

/// The status of a fault of the text of a plain CNF.
fn clauses_fault(fault: CnfTextFault) -> Status
    ensures status { result ≡ clauses_fault fault }
    ensures built { result ≢ Status.Usage }
{
    match fault {
        CnfTextFault::TooLong => Status::Model(ModelFault::TooLong),
        CnfTextFault::Form(line) => Status::Model(ModelFault::Cnf(line)),
    }
}

/// The status of a run over the text of a plain CNF.
pub(crate) fn clauses_status(end: End<CnfTextFault>) -> Status
    ensures status { result ≡ status_of clauses_fault end }
    ensures built { result ≢ Status.Usage }
{
    match end {
        End::Wrote(outcome) => outcome_status(outcome),
        End::Fault(fault) => clauses_fault(fault),
        End::Read => Status::Read,
        End::Write => Status::Write,
        End::Memory => Status::Memory,
    }
}

/// The status of a fault of a model for which nothing is imported.
fn certify_fault(fault: CertifyFault) -> Status
    ensures status { result ≡ certify_fault fault }
    ensures built { result ≢ Status.Usage }
{
    match fault {
        CertifyFault::Model(fault) => Status::Model(fault),
        CertifyFault::TwoObjectives => Status::TwoObjectives,
    }
}

/// The status of a run over what another solver found.
pub(crate) fn certify_status(end: End<CertifyFault>) -> Status
    ensures status { result ≡ status_of certify_fault end }
    ensures built { result ≢ Status.Usage }
{
    match end {
        End::Wrote(outcome) => outcome_status(outcome),
        End::Fault(fault) => certify_fault(fault),
        End::Read => Status::Read,
        End::Write => Status::Write,
        End::Memory => Status::Memory,
    }
}

/// The status of a fault of a model whose objective isn't bounded.
fn bound_fault(fault: BoundFault) -> Status
    ensures status { result ≡ bound_fault fault }
    ensures built { result ≢ Status.Usage }
{
    match fault {
        BoundFault::Model(fault) => Status::Model(fault),
        BoundFault::NoObjective => Status::NoObjective,
    }
}

/// The status of a run that bounds an objective.
pub(crate) fn bound_status(end: End<BoundFault>) -> Status
    ensures status { result ≡ status_of bound_fault end }
    ensures built { result ≢ Status.Usage }
{
    match end {
        End::Wrote(outcome) => outcome_status(outcome),
        End::Fault(fault) => bound_fault(fault),
        End::Read => Status::Read,
        End::Write => Status::Write,
        End::Memory => Status::Memory,
    }
}
