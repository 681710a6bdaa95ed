//! The exit code of a status.

ghost use Rattle.std.specs.Prelude.{◌≡◌};
ghost use Rattle.bee_cli.specs.Codes.{code_of};

use crate::status::Status;

/// The exit code of a status.
pub fn code(status: &Status) -> u8
    ensures { result ≡ code_of status.now }
{
    match status {
        Status::Done => 0,
        Status::Refused(_) => 1,
        Status::Usage => 2,
        Status::Model(_) | Status::NoObjective | Status::TwoObjectives => 3,
        Status::Read => 4,
        Status::Write => 5,
        Status::Memory => 6,
        Status::Unknown(_) => 8,
    }
}
