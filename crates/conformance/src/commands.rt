//! Whole commands over files.
//!
//! The file `cases.txt` lists the cases, one a line: a name, the status that is expected, then what fails and
//! how much room there is, each as `key=number` (`read_fails`, `write_fails`, `err_fails`, `room`,
//! `err_room`, `most`), and the words of the command. The sources that the words name, each by a name that
//! ends in `.c`, stand beside it. What the command must write to standard output is in NAME.out and to
//! standard error in NAME.err; where there is no such file, it must write nothing.

use anyhow::{Context, Result};
use lk_cases::{Case, differing_line, parse_case};
use lk_io::{MemShelf, MemSink};
use lk_top::run;
use std::alloc::Global;
use std::io::ErrorKind;
use std::rt::Files;
use std::{fs, io};

/// What a command answered.
#[derive(Drop)]
struct Ran {
    status: u8,
    out: MemSink,
    err: MemSink,
}

/// The bytes of a file, or none where there is no such file.
fn read_if_any(rt: &(impl Files + AllocGlobal), path: &str) -> io::Result<Option<Vec<u8>>> {
    match fs::read(rt, path) {
        Ok(bytes) => Ok(Some(bytes)),
        Err(error) if error.kind() == ErrorKind::NotFound => Ok(None),
        Err(error) => Err(error),
    }
}

/// A shelf with the sources that the words name.
fn shelf_of(rt: &(impl Files + AllocGlobal), case: &Case) -> Result<MemShelf> {
    let mut shelf = MemShelf::new(rt.alloc());
    for word in case
        .words
        .iter()
        .filter(|word| word.as_str().ends_with(".c"))
    {
        if let Some(bytes) = read_if_any(rt, word.as_str())? {
            shelf.put(word.as_str(), &bytes)?;
        }
    }
    if let Some(call) = case.limits.read_fails {
        shelf.fail_at(call)?;
    }
    Ok(shelf)
}

/// A sink with this room, on which a write may fail.
fn sink(alloc: Global, room: usize, most: usize, fails: Option<u64>) -> Result<MemSink> {
    let mut sink = MemSink::with_room(alloc, room, most.max(1))?;
    if let Some(call) = fails {
        sink.fail_at(call)?;
    }
    Ok(sink)
}

/// Runs the command of a case.
fn run_case(rt: &(impl Files + AllocGlobal), case: &Case) -> Result<Ran> {
    let alloc = rt.alloc();
    let limits = case.limits;
    let mut shelf = shelf_of(rt, case)?;
    let mut out = sink(alloc, limits.room, limits.most, limits.write_fails)?;
    let mut err = sink(alloc, limits.err_room, limits.err_room, limits.err_fails)?;
    let status = run(alloc, &case.words, &mut shelf, &mut out, &mut err).number();
    Ok(Ran { status, out, err })
}

/// What is to say of the status that a case answered, where it isn't the one expected.
fn status_mismatch(alloc: Global, case: &Case, status: u8) -> Result<Option<String>> {
    if status == case.status {
        return Ok(None);
    }
    let text = format!(in alloc; "{}: status {status}, not {}", case.name, case.status)?;
    Ok(Some(text))
}

/// What is to say of what a case wrote, where that isn't in the file with its name and this ending.
fn text_mismatch(
    rt: &(impl Files + AllocGlobal),
    name: &str,
    ending: &str,
    text: &[u8],
) -> Result<Option<String>> {
    let alloc = rt.alloc();
    let path = format!(in alloc; "{name}.{ending}")?;
    let wanted = read_if_any(rt, path.as_str())?.unwrap_or(Vec::new(alloc));
    match differing_line(text, &wanted) {
        Some(line) => {
            let said = format!(in alloc; "{name}: not as {path} in line {line}")?;
            Ok(Some(said))
        }
        None => Ok(None),
    }
}

/// Prints what is to say of a part of an answer, and answers whether there is nothing.
fn is_as_expected(rt: &impl Print, mismatch: Option<String>) -> Result<bool> {
    match mismatch {
        Some(said) => {
            println!(rt; "{said}")?;
            Ok(false)
        }
        None => Ok(true),
    }
}

/// Runs a case, prints what differs in its answer, and answers whether nothing does.
fn answers_so<R: Files + AllocGlobal + Print>(rt: &R, case: &Case) -> Result<bool> {
    let ran = run_case(rt, case)?;
    let status = is_as_expected(rt, status_mismatch(rt.alloc(), case, ran.status)?)?;
    let out = is_as_expected(rt, text_mismatch(rt, case.name, "out", ran.out.bytes())?)?;
    let err = is_as_expected(rt, text_mismatch(rt, case.name, "err", ran.err.bytes())?)?;
    Ok(status && out && err)
}

/// Runs the case of a line of the list, prints what differs, and answers whether nothing does.
pub(crate) fn passes<R: Files + AllocGlobal + Print>(rt: &R, line: &str) -> Result<bool> {
    let case = parse_case(rt.alloc(), line).context(format_args!("the line {line:?}"))?;
    answers_so(rt, &case).context(format_args!("the case {}", case.name))
}
