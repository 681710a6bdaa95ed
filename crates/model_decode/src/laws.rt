//! Laws of decoding, for proofs of crates above. The function does nothing; its contract is the law.

ghost use Rattle.model_decode.specs.Decoding.{DecodingLaw};

use fixpoint_queue::Oracle;
use std::sync::ledger::Ledger;

/// What a model's names have under the valuations that satisfy the CNF of the last state of its compilation, read by
/// the view of that state, are exactly the model's solutions, and their numbers fit those of an assignment.
pub fn decoding_law<F: Oracle<L>, L: Ledger>()
    ensures { DecodingLaw F.told }
{}
