//! The shelf of the system's files.
ghost use Rattle.std.specs.Prelude.{◌≡◌, ◌≤◌, None, length, IfOk};

use crate::fault::{ShelfFault, raised};
use crate::shelf::Shelf;
use crate::short_name::{ShortName, short_name};
use std::io::{ErrorKind, Read, Seek, SeekFrom};
use std::marker::Model;
use std::rt::Files;
use std::{fs, io};

/// The system's files, by path. It keeps open the file that it read last.
///
/// Where the system finds no memory for a file, the answer is `NoMemory`. Every other failure is a fault.
///
/// A contract sees its count of faults: it tells neither what the files hold nor which read failed.
#[derive(Drop)]
pub struct FileShelf<R: Files> {
    files: R,
    last: Option<OpenFile<R::File>>,
    faults: u64,
}

impl<R: Files> Model for FileShelf<R> {
    ghost use Rattle.std.specs.Prelude.{ℕ};

    ghost Value = { ℕ };

    ghost view = { λ shelf. shelf.faults };
}

/// An open file, with its name and the place at which the next read begins.
#[derive(Drop)]
struct OpenFile<F> {
    name: ShortName,
    file: F,
    at: u64,
}

impl<R: Files> FileShelf<R> {
    /// A shelf of the files that `files` reaches, which has no fault yet.
    pub fn new(files: R) -> FileShelf<R>
        ensures { result ≡ 0 }
    {
        FileShelf {
            files,
            last: None,
            faults: 0,
        }
    }
}

impl<R: Files> Shelf for FileShelf<R> {
    ghost held = { λ _. None };

    ghost faults = { λ shelf. shelf };

    ghost bad = { λ _. None };

    fn read(&mut self, name: &str, from: u64, into: &mut [u8]) -> Result<usize, ShelfFault> {
        match read_from(&self.files, &mut self.last, name, from, into) {
            Ok(count) => Ok(count),
            Err(error) if error.kind() == ErrorKind::OutOfMemory => Err(ShelfFault::NoMemory),
            Err(_) => {
                self.faults = raised(self.faults);
                Err(ShelfFault::Failed)
            }
        }
    }
}

/// Opens the file, unless it is the last one, and reads from it. What is open after it is the last file.
fn read_from<R: Files>(
    files: &R,
    last: &mut Option<OpenFile<R::File>>,
    name: &str,
    from: u64,
    into: &mut [u8],
) -> io::Result<usize>
    requires { length name.now ≤ 255 }
    ensures { IfOk result (λ n. n ≤ length into.new) }
{
    let mut open = match last.take() {
        Some(open) if open.name.as_str() == name => open,
        _ => OpenFile {
            name: short_name(name),
            file: fs::open(files, name)?,
            at: 0,
        },
    };
    if open.at != from {
        open.file.seek(SeekFrom::Start(from))?;
    }
    let count = open.file.read(into)?;
    open.at = from.saturating_add(count as u64);
    *last = Some(open);
    Ok(count)
}
