//! Why no bound is written for a model.

use model_texts::ModelFault;
use thiserror::Error;

/// Why no bound is written for a model.
#[derive(Debug, Drop, Error)]
pub enum BoundFault {
    /// Its text has this fault.
    #[error("{0}")]
    Model(ModelFault),
    /// It has no objective.
    #[error("model: no objective")]
    NoObjective,
}
