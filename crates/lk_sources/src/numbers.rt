//! The numbers of files.
ghost use Rattle.std.specs.Prelude.{◌≡◌, ◌<◌, ◌≤◌, fold, length, map, IfOk, OnOk};
ghost use Rattle.std.specs.Option.{option_map};
ghost use Rattle.lk_base.specs.Files.{with_name};
ghost use Rattle.lk_words.specs.Seen.{seen};
ghost use Rattle.lk_sources.specs.Numbers as spec;
ghost use Rattle.lk_sources.specs.Reading.{names_of};

use lk_base::{Code, Files, Name, NameFault, NoMemory, Refusal, Spot};
use lk_words::Command;
use std::alloc::Global;

/// A name of 255 bytes at most, as a value of its own.
pub(crate) fn name_of(alloc: Global, name: &[u8]) -> Result<Name, NoMemory>
    ensures { IfOk result (λ copy. copy ≡ name.now) }
{
    match Name::from_bytes(alloc, name) {
        Ok(name) => Ok(name),
        Err(NameFault::TooLong | NameFault::NoMemory) => Err(NoMemory),
    }
}

/// So many names have numbers.
const MOST_NAMES: usize = 2_147_483_647;

/// The number of this name, which is put at the end where it is new. There are never so many names in a
/// command that none is left for it.
pub(crate) fn put_name(alloc: Global, files: &mut Files, name: &[u8]) -> Result<u32, NoMemory>
    ensures number { IfOk result (λ number. number ≡ spec.number_of files.old name.now) }
    ensures within { IfOk result (λ number. number < length files.new) }
    ensures few { OnOk result (length files.new ≤ 2147483647) }
    ensures ok { OnOk result (files.new ≡ with_name files.old name.now) }
{
    if files.len() >= MOST_NAMES {
        return Err(NoMemory);
    }
    let name = name_of(alloc, name)?;
    files.put(name)
}

/// Puts these names, in their order.
fn put_names(alloc: Global, files: &mut Files, names: &[&str]) -> Result<(), NoMemory>
    ensures { OnOk result (files.new ≡ fold with_name files.old (map (λ name. name.now) names.now)) }
{
    for name in names {
        put_name(alloc, files, name.as_bytes())?;
    }
    Ok(())
}

/// Puts this name, where there is one.
fn put_some(alloc: Global, files: &mut Files, name: Option<&str>) -> Result<(), NoMemory>
    ensures { OnOk result (files.new
        ≡ fold with_name files.old (names_of (option_map (λ name. name.now) name.entry))) }
{
    match name {
        Some(name) => {
            put_name(alloc, files, name.as_bytes())?;
            Ok(())
        }
        None => Ok(()),
    }
}

/// The names of the FILEs, in the order of the words, and behind them those of the file of `--externs` and of the
/// one beside the sources.
pub(crate) fn numbered(alloc: Global, command: &Command<'_>) -> Result<Files, NoMemory>
    ensures { IfOk result (λ files. files ≡ spec.numbered (seen command.now)) }
{
    let mut files = Files::new(alloc);
    put_names(alloc, &mut files, command.files.as_slice())?;
    put_some(alloc, &mut files, command.externs)?;
    put_some(alloc, &mut files, command.task.beside())?;
    Ok(files)
}

/// The refusal with this code at the first byte of a line of the file of this name.
pub(crate) fn refusal_at(
    alloc: Global,
    files: &mut Files,
    name: &[u8],
    code: Code,
    line: u32,
) -> Result<Refusal, NoMemory>
    ensures { IfOk result (λ refusal. refusal ≡ spec.refusal_at files.old name.now code line) }
{
    let file = put_name(alloc, files, name)?;
    Ok(Refusal {
        code,
        spot: Spot { file, line, col: 1 },
        name: name_of(alloc, &[])?,
    })
}
