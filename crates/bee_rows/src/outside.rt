//! A run over a shelf and sinks in memory. How often and where the outside fails is `Outside`, a plain
//! value that a row changes at will.

ghost use Rattle.std.specs.Prelude.{◌≤◌};

use bee_cli::{ModelFault, Status, code, run};
use bee_outside::{MemShelf, MemSink};
use std::alloc::{AllocError, Global};
use typed_model::TypeFault;

/// How often and where the outside fails, and how much it gives and takes at once.
#[derive(Clone, Copy)]
pub struct Outside<'a> {
    /// How many bytes one call of the shelf gives, and one of the sink takes, at most.
    pub step: usize,
    /// How many bytes the sink has room for.
    pub room: usize,
    /// The numbers of the calls of the shelf that fail.
    pub shelf_failing: &'a [u64],
    /// The numbers of the calls of the sink that fail.
    pub sink_failing: &'a [u64],
    /// The numbers of the calls of the sink for errors that fail.
    pub err_failing: &'a [u64],
}

/// Ample room, large steps and no fault.
pub const AMPLE: Outside<'static> = Outside {
    step: 1_048_576,
    room: 33_554_432,
    shelf_failing: &[],
    sink_failing: &[],
    err_failing: &[],
};

/// What a run showed.
#[derive(Drop)]
pub struct Shown {
    /// The status in words, and its number where it has one.
    pub status: (&'static str, u128),
    /// The exit code of the status.
    pub code: u8,
    /// The bytes that the sink took.
    pub out: MemSink,
    /// The bytes that the sink for errors took.
    pub err: MemSink,
}

/// A fault of an item in words, and the item's number.
fn fault_described(fault: &TypeFault) -> (&'static str, u128) {
    match fault {
        TypeFault::NoGoal(item) => ("goal", u128::from(*item)),
        TypeFault::Unknown(item) => ("unknown", u128::from(*item)),
        TypeFault::Undeclared(item) => ("undeclared", u128::from(*item)),
        TypeFault::Kind(item) => ("kind", u128::from(*item)),
        TypeFault::Twice(item) => ("twice", u128::from(*item)),
        TypeFault::Lengths(item) => ("lengths", u128::from(*item)),
        TypeFault::EmptyDomain(item) => ("empty domain", u128::from(*item)),
        TypeFault::DivDomain(item) => ("division domain", u128::from(*item)),
        TypeFault::Memory => ("memory", 0),
    }
}

/// A status in words, and its number where it has one.
fn described(status: &Status) -> (&'static str, u128) {
    match status {
        Status::Done => ("done", 0),
        Status::Refused(line) => ("refused", u128::from(*line)),
        Status::Usage => ("usage", 0),
        Status::Model(ModelFault::TooLong) => ("too long", 0),
        Status::Model(ModelFault::Syntax(line)) => ("syntax", u128::from(*line)),
        Status::Model(ModelFault::Number(line)) => ("number", u128::from(*line)),
        Status::Model(ModelFault::Typed(fault)) => fault_described(fault),
        Status::Model(ModelFault::TooHeavy(weight)) => ("weight", *weight),
        Status::Model(ModelFault::Cnf(line)) => ("cnf", u128::from(*line)),
        Status::TwoObjectives => ("two objectives", 0),
        Status::NoObjective => ("no objective", 0),
        Status::Read => ("read", 0),
        Status::Write => ("write", 0),
        Status::Memory => ("memory", 0),
        Status::Unknown(count) => ("unknown", u128::from(*count)),
    }
}

/// Bytes as a text, to be shown.
pub fn text_of(bytes: &[u8]) -> &str {
    str::from_utf8(bytes).unwrap_or("bytes that are no text")
}

impl Shown {
    /// The exit code, and the status in words with its number, if it has one.
    pub fn end(&self, alloc: Global) -> Result<String, AllocError> {
        let code = self.code;
        match self.status {
            (word, 0) => format!(in alloc; "{code} {word}"),
            (word, number) => format!(in alloc; "{code} {word} {number}"),
        }
    }
}

/// Words that are owned.
fn owned(alloc: Global, words: &[&str]) -> Result<Vec<String>, AllocError> {
    let mut all = Vec::new(alloc);
    for word in words {
        all.push(String::from_str(alloc, word)?)?;
    }
    Ok(all)
}

/// A text under its name.
fn file(alloc: Global, name: &str, text: &[u8]) -> Result<(String, Vec<u8>), AllocError> {
    let name = String::from_str(alloc, name)?;
    let text = Vec::from_slice(alloc, text)?;
    Ok((name, text))
}

/// Texts under their names.
fn owned_files(
    alloc: Global,
    files: &[(&str, &[u8])],
) -> Result<Vec<(String, Vec<u8>)>, AllocError> {
    let mut all = Vec::new(alloc);
    for (name, text) in files {
        all.push(file(alloc, name, text)?)?;
    }
    Ok(all)
}

/// A shelf on which texts stand under their names.
fn shelf(
    alloc: Global,
    files: &[(&str, &[u8])],
    outside: Outside<'_>,
) -> Result<MemShelf, AllocError>
    requires { 1 ≤ outside.step }
{
    let failing = Vec::from_slice(alloc, outside.shelf_failing)?;
    let files = owned_files(alloc, files)?;
    Ok(MemShelf::with(files, outside.step, failing))
}

/// A sink with so much room, of which these calls fail.
fn sink(alloc: Global, room: usize, step: usize, failing: &[u64]) -> Result<MemSink, AllocError>
    requires { 1 ≤ step }
{
    let failing = Vec::from_slice(alloc, failing)?;
    MemSink::with(alloc, room, step, failing)
}

/// What the words come to: the status in words, and its exit code.
fn ended(
    alloc: Global,
    words: &Vec<String>,
    shelf: &mut MemShelf,
    out: &mut MemSink,
    err: &mut MemSink,
) -> ((&'static str, u128), u8) {
    let status = run(alloc, words, shelf, out, err);
    (described(&status), code(&status))
}

/// Runs the words over a shelf.
fn run_on(
    alloc: Global,
    words: &Vec<String>,
    shelf: &mut MemShelf,
    outside: Outside<'_>,
) -> Result<Shown, AllocError>
    requires { 1 ≤ outside.step }
{
    let mut out = sink(alloc, outside.room, outside.step, outside.sink_failing)?;
    let mut err = sink(alloc, 1024, outside.step, outside.err_failing)?;
    let (status, code) = ended(alloc, words, shelf, &mut out, &mut err);
    Ok(Shown {
        status,
        code,
        out,
        err,
    })
}

/// Runs the words over a shelf on which texts stand under their names.
fn run_files(
    alloc: Global,
    words: &[&str],
    files: &[(&str, &[u8])],
    outside: Outside<'_>,
) -> Result<Shown, AllocError>
    requires { 1 ≤ outside.step }
{
    let words = owned(alloc, words)?;
    let mut shelf = shelf(alloc, files, outside)?;
    run_on(alloc, &words, &mut shelf, outside)
}

/// The words of a run, and the texts that they name.
#[derive(Drop)]
pub struct Call<'a> {
    pub words: Vec<&'a str>,
    pub texts: Vec<(&'a str, &'a [u8])>,
}

impl<'a> Call<'a> {
    /// Runs the words over the texts.
    pub fn run(&self, alloc: Global, outside: Outside<'_>) -> Result<Shown, AllocError>
        requires { 1 ≤ outside.step }
    {
        run_files(alloc, self.words.as_slice(), self.texts.as_slice(), outside)
    }

    /// The text of a name; nothing where no text has it.
    pub fn text(&self, name: &str) -> &'a [u8] {
        for (other, text) in self.texts.as_slice() {
            if *other == name {
                return text;
            }
        }
        b""
    }
}
