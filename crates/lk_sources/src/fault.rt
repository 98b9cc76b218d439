//! Why the sources of a command make no program.
ghost use Rattle.std.specs.Prelude.{◌<◌, length};
ghost use Rattle.lk_sources.specs.Accepting.{IsInFile, IsRefusedAt};
ghost use Rattle.lk_sources.specs.Numbers as numbers;

use crate::numbers::refusal_at;
use lk_base::{Code, Files, Name, NoMemory, Refusal};
use std::alloc::Global;

/// Why the sources of a command make no program: they can't be read, or aren't accepted,
/// or speak against one another.
#[derive(Drop)]
pub enum SourcesFault {
    /// They are refused, at a place in this file.
    Refused {
        /// The name of the file.
        file: Name,
        /// The refusal.
        refusal: Refusal,
    },
    /// The file of this name can't be read.
    Unread {
        /// The name of the file.
        name: Name,
    },
    /// No memory was found.
    NoMemory,
}

impl From<NoMemory> for SourcesFault {
    ghost use Rattle.std.specs.Prelude.{◌≡◌};
    ghost use Rattle.lk_sources.specs.declared.fault.SourcesFault.TheVariants.{NoMemory};

    ghost from_gives = { λ _ fault. fault ≡ NoMemory };

    fn from(_error: NoMemory) -> SourcesFault {
        SourcesFault::NoMemory
    }
}

/// A refusal with the name of the file in which its place stands.
pub fn refused_in(files: &Files, refusal: Refusal) -> SourcesFault
    requires { refusal.spot.file < length files.now }
    ensures { IsInFile files.now refusal result }
{
    let file = files.get(refusal.spot.file).unwrap();
    match file.copy() {
        Ok(file) => SourcesFault::Refused { file, refusal },
        Err(NoMemory) => SourcesFault::NoMemory,
    }
}

/// The refusal with this code and an empty name at the first byte of a line of the file of this name, or want of
/// memory.
pub fn refused_at(
    alloc: Global,
    files: &mut Files,
    file: Name,
    code: Code,
    line: u32,
) -> SourcesFault
    ensures { IsRefusedAt file (numbers.refusal_at files.old file code line) result }
{
    match refusal_at(alloc, files, file.bytes(), code, line) {
        Ok(refusal) => SourcesFault::Refused { file, refusal },
        Err(NoMemory) => SourcesFault::NoMemory,
    }
}
