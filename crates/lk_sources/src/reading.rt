//! The files of a command, read whole and in order.
ghost use Rattle.std.specs.Prelude.{◌≡◌, ◌≤◌, true, [], map, All, IfOk, IfErr};
ghost use Rattle.std.specs.Option.{option_map};
ghost use Rattle.lk_io.specs.Shelf.{IsFileName};
ghost use Rattle.lk_words.specs.Seen.{seen, seen_task};
ghost use Rattle.lk_words.specs.Words.{beside, is_in_bounds};
ghost use Rattle.lk_sources.specs.Calls.{AreFileNames, AreFiles, AreBoth, AreOwn, AreNoFiles, AreNotBoth, IsFile, IsNoFile, IsUnread};
ghost use Rattle.lk_sources.specs.Readable.{FailsToRead, Reads};
ghost use Rattle.lk_sources.specs.Reading as spec;
ghost use Rattle.lk_sources.specs.Reading.{names_of};
ghost use Rattle.lk_sources.specs.Shelves.{shelved};

use crate::fault::{SourcesFault, refused_at};
use crate::numbers::{name_of, numbered};
use lk_base::{Code, Files, LONGEST_EXTERNS, LONGEST_SOURCES, Name, NoMemory, Seq};
use lk_io::{ReadFault, Shelf, read_whole};
use lk_words::{Command, Task};
use std::alloc::{AllocFailed, Global};

/// A file that was read.
#[derive(Drop)]
pub struct Source {
    /// Its name.
    pub name: Name,
    /// Its bytes.
    pub bytes: Seq<u8>,
}

/// Why files were not read.
#[derive(Drop)]
pub(crate) enum ReadingFault {
    /// With the file of this name they have more bytes than they may have together.
    TooLong(Name),
    /// The file of this name can't be read.
    Unread(Name),
    /// No memory was found.
    NoMemory,
}

/// The files of a command, and the numbers of their names.
#[derive(Drop)]
pub struct Texts {
    /// The names of the FILEs, in the order of the words, and behind them those of the file of `--externs` and of
    /// the one beside the sources.
    pub files: Files,
    /// The file of `--externs`, where there is one.
    pub externs: Seq<Source>,
    /// The file that the task reads beside the sources, where there is one.
    pub beside: Seq<Source>,
    /// The sources, in their order.
    pub sources: Seq<Source>,
}

/// The file of `--externs` and the one beside the sources, where there are such.
#[derive(Drop)]
struct Own {
    externs: Seq<Source>,
    beside: Seq<Source>,
}

/// These, and the sources.
#[derive(Drop)]
struct Both {
    externs: Seq<Source>,
    beside: Seq<Source>,
    sources: Seq<Source>,
}

/// Reads the file of this name, of at most `most` bytes.
fn read_file<F: Shelf>(
    alloc: Global,
    shelf: &mut F,
    name: &str,
    most: u64,
) -> Result<Source, ReadingFault>
    requires { IsFileName name.now }
    ensures ok { IfOk result (IsFile name.now most (shelved F.held F.bad F.faults shelf.old shelf.new)) }
    ensures err { IfErr result (IsNoFile name.now most (shelved F.held F.bad F.faults shelf.old shelf.new)) }
    ensures held { F.held shelf.new ≡ F.held shelf.old }
    ensures later { F.faults shelf.old ≤ F.faults shelf.new }
{
    match read_whole(alloc, shelf, name, most) {
        Ok(bytes) => Ok(Source {
            name: name_of(alloc, name.as_bytes())?,
            bytes: Seq::new(bytes),
        }),
        Err(ReadFault::TooLong) => Err(ReadingFault::TooLong(name_of(alloc, name.as_bytes())?)),
        Err(ReadFault::Failed) => Err(ReadingFault::Unread(name_of(alloc, name.as_bytes())?)),
        Err(ReadFault::NoMemory) => Err(ReadingFault::NoMemory),
    }
}

/// Reads the files of these names, in order, of at most `most` bytes together.
fn read_files<F: Shelf>(
    alloc: Global,
    shelf: &mut F,
    names: &[&str],
    most: u64,
) -> Result<Seq<Source>, ReadingFault>
    requires { All (λ name. IsFileName name.now) names.now }
    ensures ok { IfOk result (AreFiles (map (λ name. name.now) names.now) most
        (shelved F.held F.bad F.faults shelf.old shelf.new)) }
    ensures err { IfErr result (AreNoFiles (map (λ name. name.now) names.now) most
        (shelved F.held F.bad F.faults shelf.old shelf.new)) }
    ensures held { F.held shelf.new ≡ F.held shelf.old }
    ensures later { F.faults shelf.old ≤ F.faults shelf.new }
{
    let mut sources = Vec::new(alloc);
    let mut left = most;
    for name in names {
        let source = read_file(alloc, shelf, name, left)?;
        left -= source.bytes.len() as u64;
        sources.push(source)?;
    }
    Ok(Seq::new(sources))
}

/// No files.
fn no_sources(alloc: Global) -> Seq<Source>
    ensures { result ≡ [] }
{
    Seq::new(Vec::new(alloc))
}

/// Reads the file of this name, of at most `most` bytes, where there is one.
fn read_named<F: Shelf>(
    alloc: Global,
    shelf: &mut F,
    name: Option<&str>,
    most: u64,
) -> Result<Seq<Source>, ReadingFault>
    requires { AreFileNames (names_of (option_map (λ name. name.now) name)) }
    ensures ok { IfOk result (AreFiles (names_of (option_map (λ name. name.now) name.entry)) most
        (shelved F.held F.bad F.faults shelf.old shelf.new)) }
    ensures err { IfErr result (AreNoFiles (names_of (option_map (λ name. name.now) name.entry)) most
        (shelved F.held F.bad F.faults shelf.old shelf.new)) }
    ensures held { F.held shelf.new ≡ F.held shelf.old }
    ensures later { F.faults shelf.old ≤ F.faults shelf.new }
{
    match name {
        Some(name) => read_files(alloc, shelf, &[name], most),
        None => Ok(no_sources(alloc)),
    }
}

/// The most bytes of the file that a task reads beside the sources.
fn longest_beside(task: &Task<'_>) -> u64
    ensures { result ≡ spec.longest_beside (seen_task task.now) }
{
    match task {
        Task::Check | Task::Order => 0,
        Task::Play { schedule: _ } => LONGEST_EXTERNS,
    }
}

/// Reads the file that a task reads beside the sources, where there is one.
fn read_beside<F: Shelf>(
    alloc: Global,
    shelf: &mut F,
    task: &Task<'_>,
) -> Result<Seq<Source>, ReadingFault>
    requires { AreFileNames (names_of (beside (seen_task task.now))) }
    ensures ok { IfOk result (AreFiles (names_of (beside (seen_task task.now)))
        (spec.longest_beside (seen_task task.now)) (shelved F.held F.bad F.faults shelf.old shelf.new)) }
    ensures err { IfErr result (AreNoFiles (names_of (beside (seen_task task.now)))
        (spec.longest_beside (seen_task task.now)) (shelved F.held F.bad F.faults shelf.old shelf.new)) }
    ensures held { F.held shelf.new ≡ F.held shelf.old }
    ensures later { F.faults shelf.old ≤ F.faults shelf.new }
{
    read_named(alloc, shelf, task.beside(), longest_beside(task))
}

/// Reads the files of a command but its sources: that of `--externs` first.
fn read_own<F: Shelf>(
    alloc: Global,
    command: &Command<'_>,
    shelf: &mut F,
) -> Result<Own, ReadingFault>
    requires { is_in_bounds (seen command.now) ≡ true }
    ensures ok { IfOk result (λ own. AreOwn (seen command.now)
        (shelved F.held F.bad F.faults shelf.old shelf.new) own.externs own.beside) }
    ensures err { IfErr result (AreNotBoth (seen command.now)
        (shelved F.held F.bad F.faults shelf.old shelf.new)) }
    ensures held { F.held shelf.new ≡ F.held shelf.old }
    ensures later { F.faults shelf.old ≤ F.faults shelf.new }
{
    let externs = read_named(alloc, shelf, command.externs, LONGEST_EXTERNS)?;
    let beside = read_beside(alloc, shelf, &command.task)?;
    Ok(Own { externs, beside })
}

/// Reads the files of a command: its own first, and then each FILE.
fn read_both<F: Shelf>(
    alloc: Global,
    command: &Command<'_>,
    shelf: &mut F,
) -> Result<Both, ReadingFault>
    requires { is_in_bounds (seen command.now) ≡ true }
    ensures ok { IfOk result (AreBoth (seen command.now) (shelved F.held F.bad F.faults shelf.old shelf.new)) }
    ensures err { IfErr result (AreNotBoth (seen command.now)
        (shelved F.held F.bad F.faults shelf.old shelf.new)) }
    ensures held { F.held shelf.new ≡ F.held shelf.old }
    ensures later { F.faults shelf.old ≤ F.faults shelf.new }
{
    let own = read_own(alloc, command, shelf)?;
    let sources = read_files(alloc, shelf, command.files.as_slice(), LONGEST_SOURCES)?;
    let Own { externs, beside } = own;
    Ok(Both {
        externs,
        beside,
        sources,
    })
}

/// Why the files of a command are not read.
fn unread(alloc: Global, files: &mut Files, fault: ReadingFault) -> SourcesFault
    ensures { IsUnread files.old fault result }
{
    match fault {
        ReadingFault::TooLong(file) => refused_at(alloc, files, file, Code::TooLong, 1),
        ReadingFault::Unread(name) => SourcesFault::Unread { name },
        ReadingFault::NoMemory => SourcesFault::NoMemory,
    }
}

/// Reads the files of a command: that of `--externs` first, then the one that its task reads beside the sources,
/// and then each FILE. It stops at the first that can't be read or that is too long.
pub fn read<F: Shelf>(
    alloc: Global,
    command: &Command<'_>,
    shelf: &mut F,
) -> Result<Texts, SourcesFault>
    requires { is_in_bounds (seen command.now) ≡ true }
    ensures ok { IfOk result (Reads (seen command.now) (shelved F.held F.bad F.faults shelf.old shelf.new)) }
    ensures err { IfErr result (FailsToRead (seen command.now)
        (shelved F.held F.bad F.faults shelf.old shelf.new)) }
    ensures held { F.held shelf.new ≡ F.held shelf.old }
    ensures later { F.faults shelf.old ≤ F.faults shelf.new }
{
    let mut files = numbered(alloc, command)?;
    match read_both(alloc, command, shelf) {
        Ok(
            Both {
                externs,
                beside,
                sources,
            },
        ) => Ok(Texts {
            files,
            externs,
            beside,
            sources,
        }),
        Err(fault) => Err(unread(alloc, &mut files, fault)),
    }
}

impl From<NoMemory> for ReadingFault {
    ghost use Rattle.std.specs.Prelude.{◌≡◌};
    ghost use Rattle.lk_sources.specs.declared.reading.ReadingFault.TheVariants.{NoMemory};

    ghost from_gives = { λ _ fault. fault ≡ NoMemory };

    fn from(_error: NoMemory) -> ReadingFault {
        ReadingFault::NoMemory
    }
}

impl<T: Drop> From<AllocFailed<T>> for ReadingFault {
    ghost use Rattle.std.specs.Prelude.{◌≡◌};
    ghost use Rattle.lk_sources.specs.declared.reading.ReadingFault.TheVariants.{NoMemory};

    ghost from_gives = { λ _ fault. fault ≡ NoMemory };

    fn from(_error: AllocFailed<T>) -> ReadingFault {
        ReadingFault::NoMemory
    }
}
