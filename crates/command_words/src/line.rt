//! The command line, as clap has it.

ghost use Rattle.std.specs.Prelude.{◌≡◌, IfOk};
ghost use Rattle.clap.specs.Words.{app_of};
ghost use Rattle.command_words.specs.Line.{bee};

use clap::{Arg, ArgAction, Command};
use std::alloc::{AllocError, Global};

/// The command `bee MODE [--budget N] [--no-restart] [--progress] [--] INPUT [SECOND]`.
pub fn bee<'a>(alloc: Global) -> Result<Command<'a>, AllocError>
    ensures { IfOk result (λ c. app_of c ≡ bee) }
{
    let mode = Arg::new(alloc, "mode")
        .required(true)
        .action(ArgAction::Set);
    let input = Arg::new(alloc, "input")
        .required(true)
        .action(ArgAction::Set);
    let second = Arg::new(alloc, "second").action(ArgAction::Set);
    let budget = Arg::new(alloc, "budget")
        .long("budget")
        .action(ArgAction::Set);
    let no_restart = Arg::new(alloc, "no-restart")
        .long("no-restart")
        .action(ArgAction::SetTrue);
    let progress = Arg::new(alloc, "progress")
        .long("progress")
        .action(ArgAction::SetTrue);
    Command::new(alloc, "bee")
        .arg(mode)?
        .arg(input)?
        .arg(second)?
        .arg(budget)?
        .arg(no_restart)?
        .arg(progress)
}
