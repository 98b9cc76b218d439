//! The points of a source.
ghost use Rattle.std.specs.Prelude.{IfOk, IfSome, length};
ghost use Rattle.lk_lower_unit.specs.Wholes.{IsOfSources};
ghost use Rattle.lk_sources.specs.Accepting.{AreChecked};
ghost use Rattle.lk_sources.specs.Readable.{AreFew, AreNamed, AreShort, IsReadable};
ghost use Rattle.lk_sources.specs.Reading.{longest_sources};

use lk_base::{Files as Names, Name, NoMemory};
use lk_facts::Points;
use lk_io::FileShelf;
use lk_lower_unit::lower;
use lk_program::{Program, program_of};
use lk_sources::{Accepted, Source, Texts, accept, commands_are_in_bounds, listed_names, read};
use lk_typed::Whole;
use lk_words::command;
use std::alloc::Global;
use std::rt::Files;

/// The words of the command that checks a file.
fn check_words(alloc: Global, file: &str) -> Result<Vec<String>, NoMemory> {
    let mut words = Vec::new(alloc);
    words.push(String::from_str(alloc, "check")?)?;
    words.push(String::from_str(alloc, file)?)?;
    Ok(words)
}

/// The program of accepted sources, or none.
fn whole_of(alloc: Global, accepted: Accepted) -> Option<Whole>
    requires checked { AreChecked accepted }
    requires few { AreFew (length accepted.sources.items) }
    ensures { IfSome result IsOfSources }
{
    match program_of(alloc, accepted) {
        Ok(Program { files: _, whole }) => Some(whole),
        Err(_) => None,
    }
}

/// The program of sources beside which these names are listed, or none.
fn program_with(
    alloc: Global,
    externs: Vec<Name>,
    sources: &[Source],
    files: Names,
) -> Option<Whole>
    requires short { AreShort longest_sources sources.now }
    requires named { AreNamed files sources.now }
    requires few { AreFew (length sources.now) }
    ensures { IfSome result IsOfSources }
{
    match accept(alloc, externs, sources, files) {
        Ok(accepted) => whole_of(alloc, accepted),
        Err(_) => None,
    }
}

/// The program that a text makes, or none.
fn program_in(alloc: Global, text: Texts) -> Option<Whole>
    requires readable { IsReadable text }
    requires few { AreFew (length text.sources) }
    ensures { IfSome result IsOfSources }
{
    let Texts {
        mut files,
        externs,
        beside: _beside,
        sources,
    } = text;
    match listed_names(alloc, &mut files, externs.list()) {
        Ok(names) => program_with(alloc, names, sources.list(), files),
        Err(_) => None,
    }
}

/// The program in a file, or none.
fn program_at(rt: &(impl Files + AllocGlobal), file: &str) -> Result<Option<Whole>, NoMemory>
    ensures { IfOk result (λ found. IfSome found IsOfSources) }
{
    let words = check_words(rt.alloc(), file)?;
    let check = match command(rt.alloc(), &words) {
        Ok(check) => check,
        Err(_) => return Ok(None),
    };
    commands_are_in_bounds();
    match read(rt.alloc(), &check, &mut FileShelf::new(rt)) {
        Ok(text) => Ok(program_in(rt.alloc(), text)),
        Err(_) => Ok(None),
    }
}

/// The points of the program in a file, or none.
pub(crate) fn points_of(
    rt: &(impl Files + AllocGlobal),
    file: &str,
) -> Result<Option<Points>, NoMemory> {
    let Some(whole) = program_at(rt, file)? else {
        return Ok(None);
    };
    Ok(lower(rt.alloc(), &whole).ok())
}
