//! The command, by what clap found of the words.

ghost use Rattle.std.specs.Prelude.{◌≡◌, codes, option_map};
ghost use Rattle.clap.specs.Words.{first_value, found_of};
ghost use Rattle.command_words.specs.Request.{is_word, options_of, lone_input, both_inputs, queens_size, request_of};
ghost use Rattle.command_words.specs.Request.{reading_requested, searching_requested, queens_requested};
ghost use Rattle.command_words.specs.Request.{resuming_requested};
ghost use Rattle.command_words.specs.Request.{checking_requested, bound_requested, still_requested};
ghost use Rattle.command_words.specs.Request.{mode_requested, requested};

use crate::command::{Command, Options};
use crate::numbers::{bound, budget, size};
use clap::ArgMatches;
use search_options::SearchOptions;

/// Whether a word stands and is this one.
fn is_word(text: &str, word: Option<&str>) -> bool
    ensures { result ≡ is_word text.now (option_map (λ s. s.now) word.entry) }
{
    match word {
        Some(found) => found == text,
        None => false,
    }
}

/// The options, where the budget is one.
fn found_options(matches: &ArgMatches<'_>) -> Option<Options>
    ensures { result ≡ options_of (first_value (found_of matches.now)) }
{
    let budget = budget(matches.get_str("budget"))?;
    let is_fixed = is_word("true", matches.get_str("no-restart"));
    let search = SearchOptions {
        budget,
        restart: !is_fixed,
    };
    let progress = is_word("true", matches.get_str("progress"));
    Some(Options { search, progress })
}

/// The first name, where no second one is given.
fn lone_input<'a>(matches: &ArgMatches<'a>) -> Option<&'a str>
    ensures { option_map (λ s. s.now) result ≡ lone_input (first_value (found_of matches.now)) }
{
    if matches.get_str("second").is_some() {
        return None;
    }
    matches.get_str("input")
}

/// Both names, where both are given.
fn both_inputs<'a>(matches: &ArgMatches<'a>) -> Option<(&'a str, &'a str)>
    ensures { option_map (λ names. (names.0.now, names.1.now)) result
        ≡ both_inputs (first_value (found_of matches.now)) }
{
    let input = matches.get_str("input")?;
    let second = matches.get_str("second")?;
    Some((input, second))
}

/// The size of a board, where it is given alone.
fn queens_size(matches: &ArgMatches<'_>) -> Option<u64>
    ensures { result ≡ queens_size (first_value (found_of matches.now)) }
{
    let word = lone_input(matches)?;
    size(word)
}

/// The command of a mode that reads one text and doesn't search.
fn reading_command<'a>(mode: Option<&str>, matches: &ArgMatches<'a>) -> Option<Command<'a>>
    ensures { option_map request_of result
        ≡ reading_requested (option_map (λ s. s.now) mode.entry) (first_value (found_of matches.now)) }
{
    let input = lone_input(matches)?;
    if is_word("compile", mode) {
        Some(Command::Compile { input })
    } else if is_word("weigh", mode) {
        Some(Command::Weigh { input })
    } else if is_word("opbmodel", mode) {
        Some(Command::OpbModel { input })
    } else {
        None
    }
}

/// The command of a mode that reads one text and searches.
fn searching_command<'a>(
    mode: Option<&str>,
    matches: &ArgMatches<'a>,
    options: Options,
) -> Option<Command<'a>>
    ensures { option_map request_of result
        ≡ searching_requested (option_map (λ s. s.now) mode.entry) (first_value (found_of matches.now)) options }
{
    let input = lone_input(matches)?;
    if is_word("solve", mode) {
        Some(Command::Solve { input, options })
    } else if is_word("sat", mode) {
        Some(Command::Sat { input, options })
    } else if is_word("opb", mode) {
        Some(Command::Opb { input, options })
    } else if is_word("all", mode) {
        Some(Command::All { input, options })
    } else if is_word("core", mode) {
        Some(Command::Core { input, options })
    } else {
        None
    }
}

/// The command that places queens.
fn queens_command<'a>(
    mode: Option<&str>,
    matches: &ArgMatches<'a>,
    options: Options,
) -> Option<Command<'a>>
    ensures { option_map request_of result
        ≡ queens_requested (option_map (λ s. s.now) mode.entry) (first_value (found_of matches.now)) options }
{
    if is_word("queens", mode) {
        let size = queens_size(matches)?;
        Some(Command::Queens { size, options })
    } else {
        None
    }
}

/// The command that solves a model from values that are known.
fn resuming_command<'a>(
    mode: Option<&str>,
    matches: &ArgMatches<'a>,
    options: Options,
) -> Option<Command<'a>>
    ensures { option_map request_of result
        ≡ resuming_requested (option_map (λ s. s.now) mode.entry) (first_value (found_of matches.now)) options }
{
    if is_word("resume", mode) {
        let (input, second) = both_inputs(matches)?;
        Some(Command::Resume {
            input,
            second,
            options,
        })
    } else {
        None
    }
}

/// The command of a mode that reads two texts and doesn't search.
fn checking_command<'a>(mode: Option<&str>, matches: &ArgMatches<'a>) -> Option<Command<'a>>
    ensures { option_map request_of result
        ≡ checking_requested (option_map (λ s. s.now) mode.entry) (first_value (found_of matches.now)) }
{
    let (input, second) = both_inputs(matches)?;
    if is_word("check", mode) {
        Some(Command::Check { input, second })
    } else if is_word("decode", mode) {
        Some(Command::Decode { input, second })
    } else if is_word("drup", mode) {
        Some(Command::Drup { input, second })
    } else if is_word("checkall", mode) {
        Some(Command::CheckAll { input, second })
    } else if is_word("checkcore", mode) {
        Some(Command::CheckCore { input, second })
    } else if is_word("certify", mode) {
        Some(Command::Certify { input, second })
    } else {
        None
    }
}

/// The command that bounds an objective.
fn bound_command<'a>(mode: Option<&str>, matches: &ArgMatches<'a>) -> Option<Command<'a>>
    ensures { option_map request_of result
        ≡ bound_requested (option_map (λ s. s.now) mode.entry) (first_value (found_of matches.now)) }
{
    if is_word("bound", mode) {
        let (input, word) = both_inputs(matches)?;
        let number = bound(word)?;
        Some(Command::Bound { input, number })
    } else {
        None
    }
}

/// The command of a mode that makes no search.
fn still_command<'a>(mode: Option<&str>, matches: &ArgMatches<'a>) -> Option<Command<'a>>
    ensures { option_map request_of result
        ≡ still_requested (option_map (λ s. s.now) mode.entry) (first_value (found_of matches.now)) }
{
    if let Some(command) = checking_command(mode, matches) {
        return Some(command);
    }
    if let Some(command) = reading_command(mode, matches) {
        return Some(command);
    }
    bound_command(mode, matches)
}

/// The command of a mode. That the progress is told stands with a mode that searches alone.
fn mode_command<'a>(matches: &ArgMatches<'a>, options: Options) -> Option<Command<'a>>
    ensures { option_map request_of result
        ≡ mode_requested (first_value (found_of matches.now) (codes "mode")) (first_value (found_of matches.now))
        options }
{
    let mode = matches.get_str("mode");
    if let Some(command) = searching_command(mode, matches, options) {
        return Some(command);
    }
    if let Some(command) = queens_command(mode, matches, options) {
        return Some(command);
    }
    if let Some(command) = resuming_command(mode, matches, options) {
        return Some(command);
    }
    if options.progress {
        return None;
    }
    still_command(mode, matches)
}

/// The command.
pub fn found_command<'a>(matches: &ArgMatches<'a>) -> Option<Command<'a>>
    ensures { option_map request_of result ≡ requested (first_value (found_of matches.now)) }
{
    let options = found_options(matches)?;
    mode_command(matches, options)
}
