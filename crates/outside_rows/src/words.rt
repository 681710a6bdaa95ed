//! Words of the command line.

use command_words::{Command, read_command};
use std::alloc::{AllocError, Global};
use std::process::Abort;
use std::test::Fail;

/// The words of a line, which are written apart by blanks.
fn words_of(alloc: Global, line: &str) -> Result<Vec<String>, AllocError> {
    let mut words = Vec::new(alloc);
    for word in line.split(' ') {
        words.push(String::from_str(alloc, word)?)?;
    }
    Ok(words)
}

/// The mode of a command, and its first name.
fn mode_of<'a>(command: &Command<'a>) -> (&'static str, &'a str) {
    match *command {
        Command::Compile { input } => ("compile", input),
        Command::Weigh { input } => ("weigh", input),
        Command::Solve { input, .. } => ("solve", input),
        Command::Check { input, .. } => ("check", input),
        Command::Decode { input, .. } => ("decode", input),
        Command::Queens { .. } => ("queens", ""),
        Command::Sat { input, .. } => ("sat", input),
        Command::Drup { input, .. } => ("drup", input),
        Command::OpbModel { input } => ("opbmodel", input),
        Command::Opb { input, .. } => ("opb", input),
        Command::All { input, .. } => ("all", input),
        Command::CheckAll { input, .. } => ("checkall", input),
        Command::Core { input, .. } => ("core", input),
        Command::CheckCore { input, .. } => ("checkcore", input),
        Command::Bound { input, .. } => ("bound", input),
        Command::Certify { input, .. } => ("certify", input),
        Command::Resume { input, .. } => ("resume", input),
    }
}

/// The second name of a command.
fn second_of<'a>(command: &Command<'a>) -> Option<&'a str> {
    match *command {
        Command::Check { second, .. }
        | Command::Decode { second, .. }
        | Command::Drup { second, .. }
        | Command::CheckAll { second, .. }
        | Command::CheckCore { second, .. }
        | Command::Certify { second, .. }
        | Command::Resume { second, .. } => Some(second),
        _ => None,
    }
}

/// The size of a board.
fn size_of(command: &Command<'_>) -> Option<u64> {
    match *command {
        Command::Queens { size, .. } => Some(size),
        _ => None,
    }
}

/// The number that an objective is to be better than.
fn number_of(command: &Command<'_>) -> Option<i64> {
    match *command {
        Command::Bound { number, .. } => Some(number),
        _ => None,
    }
}

/// The budget of a command that solves, whether the search may begin again, and whether its progress is told.
fn options_of(command: &Command<'_>) -> Option<(u64, bool, bool)> {
    match *command {
        Command::Solve { options, .. }
        | Command::Queens { options, .. }
        | Command::Sat { options, .. }
        | Command::Opb { options, .. }
        | Command::All { options, .. }
        | Command::Core { options, .. }
        | Command::Resume { options, .. } => Some((
            options.search.budget,
            options.search.restart,
            options.progress,
        )),
        _ => None,
    }
}

/// The usual budget.
const USUAL: u64 = 1_000_000;

/// The command of words. What it is by the words is left unsaid, so that no row has to do with it.
fn command_of<'a>(alloc: Global, words: &'a [String]) -> Result<Option<Command<'a>>, AllocError> {
    read_command(alloc, words)
}

/// A line, the mode, and the names.
type Named = (
    &'static str,
    &'static str,
    &'static str,
    Option<&'static str>,
);

static NAMES: [Named; 23] = [
    ("bee compile m.bee", "compile", "m.bee", None),
    ("bee compile stdin --budget 5", "compile", "stdin", None),
    (
        "bee --no-restart compile m.bee --budget=007",
        "compile",
        "m.bee",
        None,
    ),
    (
        "bee compile m.bee --budget 9223372036854775807",
        "compile",
        "m.bee",
        None,
    ),
    ("bee weigh m.bee", "weigh", "m.bee", None),
    ("bee solve m.bee", "solve", "m.bee", None),
    ("bee sat m.cnf", "sat", "m.cnf", None),
    ("bee opb f.opb", "opb", "f.opb", None),
    ("bee opbmodel f.opb", "opbmodel", "f.opb", None),
    ("bee check m.bee a.txt", "check", "m.bee", Some("a.txt")),
    ("bee check m.bee m.bee", "check", "m.bee", Some("m.bee")),
    (
        "bee decode --budget 1 m.cnf --no-restart values",
        "decode",
        "m.cnf",
        Some("values"),
    ),
    ("bee drup m.cnf m.drup", "drup", "m.cnf", Some("m.drup")),
    ("bee all m.bee", "all", "m.bee", None),
    ("bee core m.bee --progress", "core", "m.bee", None),
    (
        "bee checkall m.bee a.txt",
        "checkall",
        "m.bee",
        Some("a.txt"),
    ),
    (
        "bee checkcore m.bee a.txt",
        "checkcore",
        "m.bee",
        Some("a.txt"),
    ),
    ("bee bound m.bee 7", "bound", "m.bee", None),
    ("bee certify m.bee a.txt", "certify", "m.bee", Some("a.txt")),
    (
        "bee --budget 1 drup m.cnf --no-restart m.cnf",
        "drup",
        "m.cnf",
        Some("m.cnf"),
    ),
    ("bee resume m.bee a.txt", "resume", "m.bee", Some("a.txt")),
    (
        "bee resume --progress stdin --budget 5 m.bee",
        "resume",
        "stdin",
        Some("m.bee"),
    ),
    (
        "bee resume m.bee --no-restart -- m.bee",
        "resume",
        "m.bee",
        Some("m.bee"),
    ),
];

/// Asserts that a command has the mode and the names of a row.
fn has_names(rt: &impl Abort, command: &Command<'_>, row: &Named) {
    let (line, mode, input, second) = *row;
    assert!(rt; mode_of(command) == (mode, input), "{line}");
    assert!(rt; second_of(command) == second, "{line}");
}

/// Asserts which command a line gives.
fn names_row(rt: &impl Abort, alloc: Global, row: &Named) -> Result<(), Fail> {
    let words = words_of(alloc, row.0)?;
    match command_of(alloc, words.as_slice())? {
        Some(command) => has_names(rt, &command, row),
        None => panic!(rt; "no command: {}", row.0),
    }
    Ok(())
}

#[test]
fn commands_of_words(rt: HostRuntime) -> Result<(), Fail> {
    for row in &NAMES {
        names_row(&rt, rt.alloc(), row)?;
    }
    Ok(())
}

/// A line, the budget, whether the search may begin again and its progress is told, and the size of the board.
type Given = (&'static str, u64, bool, bool, Option<u64>);

static OPTIONS: [Given; 18] = [
    ("bee solve m.bee", USUAL, true, false, None),
    ("bee solve m.bee --budget 007", 7, true, false, None),
    ("bee solve --no-restart m.bee", USUAL, false, false, None),
    ("bee solve --progress m.bee", USUAL, true, true, None),
    ("bee sat m.cnf", USUAL, true, false, None),
    (
        "bee sat --no-restart m.cnf --budget=9",
        9,
        false,
        false,
        None,
    ),
    (
        "bee opb f.opb --progress --no-restart",
        USUAL,
        false,
        true,
        None,
    ),
    ("bee all --progress m.bee", USUAL, true, true, None),
    ("bee all m.bee --budget 3", 3, true, false, None),
    ("bee core m.bee", USUAL, true, false, None),
    (
        "bee core --progress m.bee --no-restart",
        USUAL,
        false,
        true,
        None,
    ),
    ("bee resume m.bee a.txt", USUAL, true, false, None),
    ("bee resume m.bee a.txt --budget=1", 1, true, false, None),
    ("bee resume --no-restart m.bee a", USUAL, false, false, None),
    ("bee resume m.bee --progress a", USUAL, true, true, None),
    ("bee queens 4", USUAL, true, false, Some(4)),
    ("bee --progress queens 5", USUAL, true, true, Some(5)),
    (
        "bee queens 024 --budget=2 --no-restart",
        2,
        false,
        false,
        Some(24),
    ),
];

/// Asserts that a command has the options of a row.
fn has_options(rt: &impl Abort, command: &Command<'_>, row: &Given) {
    let (line, budget, restart, progress, size) = *row;
    assert!(rt;
        options_of(command) == Some((budget, restart, progress)),
        "{line}"
    );
    assert!(rt; size_of(command) == size, "{line}");
}

/// Asserts which options a line gives.
fn options_row(rt: &impl Abort, alloc: Global, row: &Given) -> Result<(), Fail> {
    let words = words_of(alloc, row.0)?;
    match command_of(alloc, words.as_slice())? {
        Some(command) => has_options(rt, &command, row),
        None => panic!(rt; "no command: {}", row.0),
    }
    Ok(())
}

#[test]
fn options_of_words(rt: HostRuntime) -> Result<(), Fail> {
    for row in &OPTIONS {
        options_row(&rt, rt.alloc(), row)?;
    }
    Ok(())
}

/// A line, the name, and the number that an objective is to be better than.
type Bounding = (&'static str, &'static str, i64);

static BOUNDS: [Bounding; 9] = [
    ("bee bound m.bee 007", "m.bee", 7),
    (
        "bee bound m.bee 9223372036854775807",
        "m.bee",
        9_223_372_036_854_775_807,
    ),
    ("bee bound m.bee -- -3", "m.bee", -3),
    ("bee bound m.bee -- 3", "m.bee", 3),
    ("bee bound m.bee --budget 5 -- -012", "m.bee", -12),
    ("bee bound -- m.bee -0", "m.bee", 0),
    ("bee -- bound -m -1", "-m", -1),
    (
        "bee bound m.bee -- -9223372036854775807",
        "m.bee",
        -9_223_372_036_854_775_807,
    ),
    ("bee bound m.bee -- -9223372036854775808", "m.bee", i64::MIN),
];

/// Asserts that a line gives the command that bounds an objective.
fn bound_row(rt: &impl Abort, alloc: Global, row: &Bounding) -> Result<(), Fail> {
    let (line, input, number) = *row;
    let words = words_of(alloc, line)?;
    match command_of(alloc, words.as_slice())? {
        Some(command) => {
            assert!(rt; mode_of(&command) == ("bound", input), "{line}");
            assert!(rt; number_of(&command) == Some(number), "{line}");
        }
        None => panic!(rt; "no command: {line}"),
    }
    Ok(())
}

#[test]
fn bounds_of_words(rt: HostRuntime) -> Result<(), Fail> {
    for row in &BOUNDS {
        bound_row(&rt, rt.alloc(), row)?;
    }
    Ok(())
}

/// Words that are no number of 64 bits, or stand in the place of an option.
static NO_BOUNDS: [&str; 13] = [
    "bee bound m.bee -3",
    "bee bound m.bee -- +3",
    "bee bound m.bee +3",
    "bee bound m.bee -- -",
    "bee bound m.bee --",
    "bee bound m.bee -- --3",
    "bee bound m.bee -- -+3",
    "bee bound m.bee -- +-3",
    "bee bound m.bee -- -3x",
    "bee bound m.bee -- -3 --budget 5",
    "bee bound -- m.bee -- -3",
    "bee bound m.bee -- 9223372036854775808",
    "bee bound m.bee -- -9223372036854775809",
];

static NO_COMMANDS: [&str; 60] = [
    "bee",
    "bee compile",
    "bee solve",
    "bee print m.bee",
    "bee Compile m.bee",
    "bee check m.bee",
    "bee decode m.cnf",
    "bee check m.bee a.txt b.txt",
    "bee solve m.bee n.bee",
    "bee sat",
    "bee sat m.cnf n.cnf",
    "bee sat m.cnf --budget 0",
    "bee sat m.cnf --progress --progress",
    "bee compile m.bee --progress",
    "bee check m.bee a.txt --progress",
    "bee opbmodel f.opb --progress",
    "bee weigh m.bee --progress",
    "bee checkall m.bee a.txt --progress",
    "bee checkcore m.bee a.txt --progress",
    "bee bound m.bee 7 --progress",
    "bee certify m.bee a.txt --progress",
    "bee all m.bee a.txt",
    "bee core m.bee a.txt",
    "bee checkall m.bee",
    "bee checkcore m.bee",
    "bee bound m.bee",
    "bee bound m.bee seven",
    "bee bound m.bee 9223372036854775808",
    "bee resume",
    "bee resume m.bee",
    "bee resume m.bee a.txt b.txt",
    "bee resume m.bee a.txt --budget 0",
    "bee resume m.bee a.txt --progress --progress",
    "bee SAT m.cnf",
    "bee drup",
    "bee drup m.cnf",
    "bee drup m.cnf m.drup n.drup",
    "bee drup m.cnf m.drup --budget 0",
    "bee drat m.cnf m.drup",
    "bee compile m.bee n.bee",
    "bee compile m.bee n.bee o.bee",
    "bee queens 3",
    "bee queens 25",
    "bee queens +8",
    "bee queens 8x",
    "bee queens eight",
    "bee queens 8 8",
    "bee compile m.bee --budget 0",
    "bee compile m.bee --budget +1",
    "bee compile m.bee --budget=-1",
    "bee compile m.bee --budget=",
    "bee compile m.bee --budget 1x",
    "bee decode m.cnf values --budget 0",
    "bee compile m.bee --budget 99999999999999999999999",
    "bee compile m.bee --budget 9223372036854775808",
    "bee compile m.bee --budget 1 --budget 1",
    "bee compile m.bee --no-restart --no-restart",
    "bee compile m.bee --fast",
    "bee --help",
    "bee compile m.bee -h",
];

/// Whether a line gives a command.
fn is_command(alloc: Global, line: &str) -> Result<bool, AllocError> {
    let words = words_of(alloc, line)?;
    Ok(command_of(alloc, words.as_slice())?.is_some())
}

#[test]
fn words_that_give_no_bound(rt: HostRuntime) -> Result<(), Fail> {
    for line in &NO_BOUNDS {
        assert!(rt; !is_command(rt.alloc(), line)?, "{line}");
    }
    Ok(())
}

#[test]
fn words_that_give_no_command(rt: HostRuntime) -> Result<(), Fail> {
    for line in &NO_COMMANDS {
        assert!(rt; !is_command(rt.alloc(), line)?, "{line}");
    }
    Ok(())
}
