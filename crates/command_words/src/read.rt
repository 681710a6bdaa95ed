//! Reading the words.

ghost use Rattle.std.specs.Prelude.{◌≡◌, IfOk, map, option_map, string_bytes};
ghost use Rattle.command_words.specs.Request.{request_of};
ghost use Rattle.command_words.specs.Line.{request};

use crate::command::Command;
use crate::found::found_command;
use crate::line::bee;
use clap::error::ErrorKind;
use std::alloc::{AllocError, Global};

/// The command that the words give; the program's name is the first word. `None` where they give none, or
/// ask for help.
pub fn read_command<'a>(
    alloc: Global,
    words: &'a [String],
) -> Result<Option<Command<'a>>, AllocError>
    ensures { IfOk result (λ command. option_map request_of command ≡ request (map string_bytes words.entry.now)) }
{
    match bee(alloc)?.try_get_matches_from(words) {
        Ok(matches) => Ok(found_command(&matches)),
        Err(error) => match error.kind() {
            ErrorKind::OutOfMemory => Err(AllocError),
            _ => Ok(None),
        },
    }
}
