//! The program that accepted sources make.
ghost use Rattle.std.specs.Prelude.{◌<◌, ◌^◌, All, IfErr, IfOk, length};
ghost use Rattle.lk_program.specs.Program.{IsFault, IsProgram, IsUnlinkedFault, Makes};
ghost use Rattle.lk_program.specs.Trees.{IsNumbered};
ghost use Rattle.lk_sources.specs.Accepting.{AreChecked, IsCheckedSource, units_of};
ghost use Rattle.lk_sources.specs.Readable.{AreFew};

use crate::trees::typed_units;
use lk_base::{Fault, Files, Name};
use lk_join::link;
use lk_link::typed_units_are_sources;
use lk_sources::{Accepted, AcceptedSource, SourcesFault, refused_in};
use lk_spots::typed_trees_stand_in_files;
use lk_typed::Whole;
use std::alloc::Global;

/// A program, with the files in which its places stand.
#[derive(Drop)]
pub struct Program {
    /// The names of the files.
    pub files: Files,
    /// The typed trees, put together.
    pub whole: Whole,
}

/// The typed trees of sources, put together.
fn whole_of(alloc: Global, externs: &[Name], sources: Vec<AcceptedSource>) -> Result<Whole, Fault>
    requires checked { All (IsCheckedSource externs.now) sources.items }
    requires numbered { All IsNumbered sources.items }
    requires few { length sources.items < 2 ^ 32 }
    ensures ok { IfOk result (IsProgram externs.now (units_of sources.items)) }
    ensures err { IfErr result (IsUnlinkedFault externs.now (units_of sources.items)) }
{
    let units = typed_units(alloc, sources)?;
    typed_units_are_sources();
    link(alloc, units, externs)
}

/// The program that accepted sources make: their typed trees, put together. They are refused with
/// `Code::NoMain`, `Code::DefinedTwice`, `Code::TypesDiffer` or `Code::NotDefined` where these speak against
/// one another; `SourcesFault::NoMemory` is the other error. Each place in it, and that of a refusal, stands
/// in one of the files.
pub fn program_of(alloc: Global, accepted: Accepted) -> Result<Program, SourcesFault>
    requires checked { AreChecked accepted }
    requires few { AreFew (length accepted.sources.items) }
    ensures ok { IfOk result (Makes accepted) }
    ensures err { IfErr result (IsFault accepted) }
{
    let Accepted {
        files,
        externs,
        sources,
    } = accepted;
    typed_trees_stand_in_files();
    match whole_of(alloc, &externs, sources) {
        Ok(whole) => Ok(Program { files, whole }),
        Err(Fault::Refused(refusal)) => Err(refused_in(&files, refusal)),
        Err(Fault::NoMemory) => Err(SourcesFault::NoMemory),
    }
}
