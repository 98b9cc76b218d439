//! The sources of a command: split, parsed and checked.
ghost use Rattle.std.specs.Prelude.{◌≡◌, ◌<◌, All, length, IfOk, IfErr};
ghost use Rattle.lk_sources.specs.Accepting.{AreAccepted, AreChecked, IsAcceptedWith, IsCheckedSource, IsPlaced, RefusesExterns, RefusesSources, units_of};
ghost use Rattle.lk_sources.specs.Calls.{IsBadExterns, IsFaultIn};
ghost use Rattle.lk_sources.specs.Externs.{Names, externs_text, listed};
ghost use Rattle.lk_sources.specs.Judging.{IsJudged};
ghost use Rattle.lk_sources.specs.Readable.{AreNamed, AreShort};
ghost use Rattle.lk_sources.specs.Reading.{longest_externs, longest_sources};

use crate::checking::{AcceptedSource, check_all};
use crate::externs::{Listed, externs_text, names_in};
use crate::fault::{SourcesFault, refused_at, refused_in};
use crate::reading::Source;
use crate::splitting::split_all;
use crate::trees::trees;
use lk_base::{Code, Fault, Files, Name, NoMemory};
use lk_spots::faults_stand_in_files;
use std::alloc::Global;

/// The sources of a command, where they are accepted.
#[derive(Drop)]
pub struct Accepted {
    /// The names of the files: of the sources, of the file of `--externs` and of line marks.
    pub files: Files,
    /// The names that the file of `--externs` lists.
    pub externs: Vec<Name>,
    /// The sources, in their order.
    pub sources: Vec<AcceptedSource>,
}

/// The checked trees of the sources.
fn judge(
    alloc: Global,
    externs: &[Name],
    sources: &[Source],
    files: &mut Files,
) -> Result<Vec<AcceptedSource>, Fault>
    requires few { AreShort longest_sources sources.now }
    requires named { AreNamed files.old sources.now }
    ensures checked { IfOk result (λ accepted. All (IsCheckedSource externs.now) accepted.items) }
    ensures placed { IfOk result (λ accepted. All (IsPlaced (length files.new)) (units_of accepted.items)) }
    ensures ok { IfOk result (λ accepted.
        AreAccepted files.old externs.now sources.now files.new (units_of accepted.items)) }
    ensures err { IfErr result (IsJudged files.old externs.now sources.now files.new) }
    ensures stands { IfErr result (IsFaultIn (length files.new)) }
{
    faults_stand_in_files();
    let lists = split_all(alloc, sources, files)?;
    let trees = trees(alloc, sources, &lists)?;
    let accepted = check_all(alloc, externs, trees)?;
    Ok(accepted)
}

/// The refusal for the file of `--externs`, of which this line is bad.
fn bad_externs(
    alloc: Global,
    files: &mut Files,
    externs: &[Source],
    line: u32,
) -> Result<SourcesFault, NoMemory>
    requires { 0 < length externs.now }
    ensures { IfOk result (IsBadExterns files.old externs.now line) }
{
    match externs {
        [first, ..] => {
            let name = first.name.copy()?;
            Ok(refused_at(alloc, files, name, Code::BadExterns, line))
        }
        [] => unreachable!(),
    }
}

/// The names that the file of `--externs` lists, the first of these files; none without one.
///
/// It is refused exactly where a line is neither empty nor a name (16), or for want of memory. Where it isn't, the
/// names of files are as before.
pub fn listed_names(
    alloc: Global,
    files: &mut Files,
    externs: &[Source],
) -> Result<Vec<Name>, SourcesFault>
    requires { AreShort longest_externs externs.now }
    ensures ok { IfOk result (λ names. listed (externs_text externs.now) ≡ Names names.items) }
    ensures same { IfOk result (λ names. files.new ≡ files.old) }
    ensures err { IfErr result (RefusesExterns files.old externs.now) }
{
    match names_in(alloc, externs_text(externs))? {
        Listed::Names(names) => Ok(names),
        Listed::BadLine(line) => Err(bad_externs(alloc, files, externs, line)?),
    }
}

/// The sources of a command, checked, where `--externs` lists these names, and these are the names of its files.
///
/// They are accepted exactly where no refusal holds and memory is found. A refusal is the first that applies: the
/// split of a source stops; a word is not supported; a source has no tree; a tree has a fault. Of the sources to
/// which it applies the first is told. As many are accepted as there are.
pub fn accept(
    alloc: Global,
    externs: Vec<Name>,
    sources: &[Source],
    mut files: Files,
) -> Result<Accepted, SourcesFault>
    requires few { AreShort longest_sources sources.now }
    requires named { AreNamed files sources.now }
    ensures checked { IfOk result AreChecked }
    ensures many { IfOk result (λ accepted. length accepted.sources.items ≡ length sources.now) }
    ensures ok { IfOk result (IsAcceptedWith files externs.items sources.now) }
    ensures err { IfErr result (RefusesSources files externs.items sources.now) }
{
    match judge(alloc, &externs, sources, &mut files) {
        Ok(sources) => Ok(Accepted {
            files,
            externs,
            sources,
        }),
        Err(Fault::Refused(refusal)) => Err(refused_in(&files, refusal)),
        Err(Fault::NoMemory) => Err(SourcesFault::NoMemory),
    }
}
