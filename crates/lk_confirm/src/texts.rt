//! The lines that go to standard error, and how a place is printed.
ghost use Rattle.std.specs.Prelude.{◌≡◌, ◌++◌, OnOk, IfOk};
ghost use Rattle.lk_confirm.specs.Texts.{place, named, refused_line, unread_line};

use lk_base::{NoMemory, Refusal, Spot};
use std::alloc::Global;

/// Appends FILE:LINE:COL.
fn push_place(alloc: Global, out: &mut Vec<u8>, file: &[u8], spot: Spot) -> Result<(), NoMemory>
    ensures { OnOk result (out.new.items ≡ out.old.items ++ place file.now spot) }
{
    let Spot { file: _, line, col } = spot;
    let numbers = format!(in alloc; ":{line}:{col}")?;
    out.extend_from_slice(file)?;
    out.extend_from_slice(numbers.as_bytes())?;
    Ok(())
}

/// Appends a blank and the name, where there is a name.
fn push_named(out: &mut Vec<u8>, name: &[u8]) -> Result<(), NoMemory>
    ensures { OnOk result (out.new.items ≡ out.old.items ++ named name.now) }
{
    if name.is_empty() {
        return Ok(());
    }
    out.push(b' ')?;
    out.extend_from_slice(name)?;
    Ok(())
}

/// The line of a refusal.
pub(crate) fn refused_line(
    alloc: Global,
    file: &[u8],
    refusal: &Refusal,
) -> Result<Vec<u8>, NoMemory>
    ensures { IfOk result (λ line. line.items ≡ refused_line file.now refusal.now) }
{
    let mut line = Vec::new(alloc);
    push_place(alloc, &mut line, file, refusal.spot)?;
    let number = refusal.code.number();
    let word = refusal.code.word();
    let cause = format!(in alloc; ": refused {number} {word}")?;
    line.extend_from_slice(cause.as_bytes())?;
    push_named(&mut line, refusal.name.bytes())?;
    line.push(b'\n')?;
    Ok(line)
}

/// The line for a file that can't be read.
pub(crate) fn unread_line(alloc: Global, name: &[u8]) -> Result<Vec<u8>, NoMemory>
    ensures { IfOk result (λ line. line.items ≡ unread_line name.now) }
{
    let mut line = Vec::from_slice(alloc, b"lsrace-witness: cannot read ")?;
    line.extend_from_slice(name)?;
    line.push(b'\n')?;
    Ok(line)
}
