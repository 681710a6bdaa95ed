//! The fakes at each failing call, with small and large steps, and the host's shelf and sink.

ghost use Rattle.std.specs.Prelude.{◌≤◌};

use bee_outside::{
    Failed, HostShelf, HostSink, MemShelf, MemSink, ReadText, Shelf, ShelfFault, Sink, read_all,
    write_all,
};
use std::alloc::{AllocError, Global};
use std::io::Write;
use std::process::Abort;
use std::test::Fail;
use std::{env, fs, io, process};

fn numbers(alloc: Global, list: &[u64]) -> Result<Vec<u64>, AllocError> {
    Vec::from_slice(alloc, list)
}

/// A text under its name.
fn file(alloc: Global, name: &str, text: &[u8]) -> Result<(String, Vec<u8>), AllocError> {
    let name = String::from_str(alloc, name)?;
    let text = Vec::from_slice(alloc, text)?;
    Ok((name, text))
}

/// A shelf with `greeting`, which has eleven bytes, and `empty`.
fn two_files(alloc: Global, step: usize, failing: &[u64]) -> Result<MemShelf, AllocError>
    requires { 1 ≤ step }
{
    let failing = numbers(alloc, failing)?;
    let greeting = file(alloc, "greeting", b"hello world")?;
    let empty = file(alloc, "empty", b"")?;
    let files = vec![in alloc; greeting, empty]?;
    Ok(MemShelf::with(files, step, failing))
}

/// What a reading answered, in words.
fn described(read: &Result<ReadText, ShelfFault>) -> (&str, &[u8]) {
    match read {
        Ok(ReadText::Whole(text)) => ("whole", text.as_slice()),
        Ok(ReadText::Cut(text)) => ("cut", text.as_slice()),
        Err(ShelfFault::Failed) => ("failed", b""),
        Err(ShelfFault::Memory) => ("memory", b""),
    }
}

/// Whether a reading answers this.
fn reads<S: Shelf>(
    alloc: Global,
    shelf: &mut S,
    name: &str,
    limit: Option<usize>,
    word: &str,
    text: &str,
) -> bool {
    let read = read_all(alloc, shelf, name, limit);
    described(&read) == (word, text.as_bytes())
}

/// The call that fails, the step, the limit, and what a reading answers in words.
type Reading = (u64, usize, Option<usize>, &'static str);

// Eleven calls give a byte each, and one more sees the end.
static READINGS: [Reading; 9] = [
    (1, 1, None, "failed"),
    (11, 1, None, "failed"),
    (12, 1, None, "failed"),
    (13, 1, None, "whole"),
    (12, 1, Some(12), "failed"),
    (12, 1, Some(11), "cut"),
    (2, 100, None, "failed"),
    (3, 100, None, "whole"),
    (2, 100, Some(11), "cut"),
];

/// Asserts what a reading answers.
fn reading_row(rt: &impl Abort, alloc: Global, row: &Reading) -> Result<(), Fail> {
    let (number, step, limit, word) = *row;
    if step < 1 {
        return Err(Fail::from("a step"));
    }
    let text = if word == "failed" { "" } else { "hello world" };
    let mut shelf = two_files(alloc, step, &[number])?;
    assert!(rt;
        reads(alloc, &mut shelf, "greeting", limit, word, text),
        "failing call {number}, step {step}"
    );
    Ok(())
}

/// Asserts what readings one after another answer.
fn readings_in_turn(rt: &impl Abort, alloc: Global, shelf: &mut MemShelf) {
    assert!(rt; reads(alloc, shelf, "greeting", Some(5), "cut", "hello"));
    assert!(rt; reads(alloc, shelf, "empty", Some(5), "whole", ""));
    assert!(rt; reads(alloc, shelf, "greeting", Some(7), "whole", " world"));
    assert!(rt; reads(alloc, shelf, "greetings", None, "failed", ""));
    assert!(rt; reads(alloc, shelf, "greetings", Some(0), "cut", ""));
}

#[test]
fn reads_to_the_end_the_limit_or_the_fault(rt: HostRuntime) -> Result<(), Fail> {
    for row in &READINGS {
        reading_row(&rt, rt.alloc(), row)?;
    }
    let mut shelf = two_files(rt.alloc(), 3, &[])?;
    readings_in_turn(&rt, rt.alloc(), &mut shelf);
    Ok(())
}

/// The call that fails, the step, the room, what is taken, and how much of it is flushed.
type Writing = (u64, usize, usize, &'static str, usize);

// Three calls take the text by two bytes, and the fourth flushes.
static WRITINGS: [Writing; 9] = [
    (1, 2, 5, "", 0),
    (2, 2, 5, "he", 0),
    (3, 2, 9, "hell", 0),
    (4, 2, 5, "hello", 0),
    (5, 2, 5, "hello", 5),
    (9, 2, 3, "hel", 0),
    (2, 100, 5, "hello", 0),
    (3, 100, 5, "hello", 5),
    (3, 100, 0, "", 0),
];

/// Asserts what a sink shows behind a writing.
fn has_written(rt: &impl Abort, sink: &MemSink, is_written: bool, row: &Writing) {
    let (number, _, _, taken, flushed) = *row;
    assert_eq!(rt; is_written, flushed == 5, "failing call {number}");
    assert_eq!(rt; sink.taken(), taken.as_bytes(), "failing call {number}");
    assert_eq!(rt; sink.flushed(), flushed, "failing call {number}");
}

/// A sink, of which one call fails.
fn failing_sink(alloc: Global, room: usize, step: usize, number: u64) -> Result<MemSink, AllocError>
    requires { 1 ≤ step }
{
    MemSink::with(alloc, room, step, numbers(alloc, &[number])?)
}

/// Asserts what a writing leaves.
fn writing_row(rt: &impl Abort, alloc: Global, row: &Writing) -> Result<(), Fail> {
    let (number, step, room, _, _) = *row;
    if step < 1 {
        return Err(Fail::from("a step"));
    }
    let mut sink = failing_sink(alloc, room, step, number)?;
    let is_written = write_all(&mut sink, b"hello").is_ok();
    has_written(rt, &sink, is_written, row);
    Ok(())
}

/// Asserts that a sink without room takes a text without bytes.
fn writes_nothing(rt: &impl Abort, alloc: Global) -> Result<(), Fail> {
    let mut full = MemSink::with(alloc, 0, 1, Vec::new(alloc))?;
    assert!(rt; write_all(&mut full, b"").is_ok());
    Ok(())
}

#[test]
fn writes_until_the_fault_or_the_room(rt: HostRuntime) -> Result<(), Fail> {
    for row in &WRITINGS {
        writing_row(&rt, rt.alloc(), row)?;
    }
    writes_nothing(&rt, rt.alloc())?;
    let refused = MemSink::with(rt.alloc(), usize::MAX, 1, Vec::new(rt.alloc()));
    assert!(rt; refused.is_err());
    Ok(())
}

/// A path of this process in the folder of temporary files.
fn temporary(rt: &HostRuntime, name: &str) -> Result<String, Fail> {
    let folder = env::temp_dir(rt)?;
    let number = process::id(rt.process());
    Ok(format!(in rt.alloc(); "{}/{name}_{number}", folder.display())?)
}

/// Whether two readings of a file, which is then there no more, and a reading of a file that isn't there answer what
/// they are to.
fn file_stays_open<S: Shelf>(rt: &HostRuntime, shelf: &mut S, path: &str) -> Result<bool, Fail> {
    let typed = reads(rt.alloc(), shelf, "stdin", None, "whole", "typed in");
    let first = reads(rt.alloc(), shelf, path, Some(2), "cut", "a ");
    let second = reads(rt.alloc(), shelf, path, None, "whole", "file");
    fs::remove_file(rt, path)?;
    Ok(typed && first && second)
}

/// Whether readings of standard input and of files answer what they are to, and how many faults were counted before and
/// behind the reading of one that isn't there.
fn host_readings(rt: &HostRuntime, path: &str) -> Result<(bool, u64, u64), Fail> {
    let mut shelf = HostShelf::new(rt.alloc(), rt, b"typed in".as_slice());
    let stays = file_stays_open(rt, &mut shelf, path)?;
    let before = shelf.faults();
    let missing = reads(rt.alloc(), &mut shelf, "no/such/file", None, "failed", "");
    Ok((stays && missing, before, shelf.faults()))
}

#[test]
fn reads_standard_input_and_files_that_stay_open(rt: HostRuntime) -> Result<(), Fail> {
    let path = temporary(&rt, "bee_outside")?;
    fs::write(&rt, path.as_str(), b"a file")?;
    assert_eq!(rt; host_readings(&rt, path.as_str())?, (true, 0, 1));
    Ok(())
}

/// Whether readings of files in the folder at hand answer what they are to, and how many faults were counted.
fn readings_at_hand(rt: &HostRuntime) -> Result<(bool, u64), Fail> {
    fs::write(rt, "model", b"a model")?;
    let mut shelf = HostShelf::new(rt.alloc(), rt, b"typed in".as_slice());
    let read = reads(rt.alloc(), &mut shelf, "model", None, "whole", "a model");
    fs::remove_file(rt, "model")?;
    let missing = reads(rt.alloc(), &mut shelf, "lines", None, "failed", "");
    let typed = reads(rt.alloc(), &mut shelf, "stdin", None, "whole", "typed in");
    Ok((read && missing && typed, shelf.faults()))
}

/// The same, in a folder that is made and goes again.
fn readings_in(rt: &HostRuntime, folder: &str) -> Result<(bool, u64), Fail> {
    let outer = env::current_dir(rt)?;
    fs::create_dir(rt, folder)?;
    env::set_current_dir(rt, folder)?;
    let found = readings_at_hand(rt)?;
    env::set_current_dir(rt, &outer)?;
    fs::remove_dir(rt, folder)?;
    Ok(found)
}

/// A name of as many letters as `stdin` is a file's.
#[test]
fn reads_a_file_whose_name_has_five_letters(rt: HostRuntime) -> Result<(), Fail> {
    let folder = temporary(&rt, "bee_outside_folder")?;
    assert_eq!(rt; readings_in(&rt, folder.as_str())?, (true, 1));
    Ok(())
}

/// A writer that takes nothing.
#[derive(Drop)]
struct Stuck;

impl Write for Stuck {
    fn write(&mut self, _buf: &[u8]) -> io::Result<usize> {
        Ok(0)
    }

    fn flush(&mut self) -> io::Result<()> {
        Ok(())
    }
}

/// Whether a stream takes a text whole, and no fault is counted.
fn stream_takes(stream: &mut Vec<u8>, text: &[u8]) -> bool {
    let mut sink = HostSink::new(stream);
    write_all(&mut sink, text).is_ok() && sink.faults() == 0
}

#[test]
fn writes_to_a_stream(rt: HostRuntime) -> Result<(), Fail> {
    let mut stream = Vec::new(rt.alloc());
    assert!(rt; stream_takes(&mut stream, b"a text"));
    assert_eq!(rt; stream.as_slice(), b"a text".as_slice());
    Ok(())
}

#[test]
fn a_stream_that_takes_nothing_fails(rt: HostRuntime) {
    let mut stuck = HostSink::new(Stuck);
    assert!(rt; stuck.put(b"").is_ok());
    assert_eq!(rt; stuck.faults(), 0);
    assert!(rt; write_all(&mut stuck, b"a text").is_err());
    assert_eq!(rt; stuck.faults(), 1);
}
