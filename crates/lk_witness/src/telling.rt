//! What is told of a search.
ghost use Rattle.std.specs.Prelude.{◌≡◌, ◌<◌, ◌≤◌, ◌^◌, ◌+◌, ◌∷◌, ◌++◌, ℕ, List, [], All, IfOk, OnOk, codes, length};
ghost use Rattle.lk_facts.specs.Lowered.{IsLowered};
ghost use Rattle.lk_report.specs.Names.{CanBeNamed, place_text};
ghost use Rattle.lk_witness.specs.Calls.{AddsLine};
ghost use Rattle.lk_witness.specs.Searched.{AreTold, IsSearched, total_text};

use crate::searching::{Search, Wanted, schedules_of};
use crate::showing::shows;
use lk_base::{Files, NoMemory};
use lk_facts::Points;
use lk_report::text_of;
use std::alloc::Global;

/// What a search found.
#[derive(Drop)]
pub struct Searched {
    /// Of each location a line, behind which the lines of a schedule stand where one was found; last, the totals.
    pub text: Vec<u8>,
    /// For how many locations there is a schedule.
    pub shown: usize,
}

/// Appends what is told of a location: words, its text, and the lines behind it.
fn push_told(
    alloc: Global,
    points: &Points,
    files: &Files,
    location: u32,
    words: &[u8],
    lines: &[u8],
    out: &mut Vec<u8>,
) -> Result<(), NoMemory>
    requires named { CanBeNamed files.now points.now }
    requires there { location < length points.now.places }
    ensures { OnOk result (out.new.items
        ≡ out.old.items ++ (words.now ++ (place_text files.now points.now location ++ 10 ∷ lines.now))) }
{
    let text = text_of(alloc, location, points, files)?;
    out.extend_from_slice(words)?;
    out.extend_from_slice(&text)?;
    out.push(b'\n')?;
    out.extend_from_slice(lines)?;
    Ok(())
}

/// Appends what was found of a location: the schedule, if its play has a race there.
fn tell(
    alloc: Global,
    points: &Points,
    files: &Files,
    location: u32,
    schedule: &[u8],
    told: &mut Searched,
) -> Result<(), NoMemory>
    requires lowered { IsLowered points.now }
    requires named { CanBeNamed files.now points.now }
    requires there { location < length points.now.places }
    requires few { told.old.shown + 1 < 2 ^ 64 }
    ensures adds { OnOk result (AddsLine files.now points.now location told.old told.new) }
    ensures few { OnOk result (told.new.shown ≤ told.old.shown + 1) }
{
    if shows(alloc, points, files, location, schedule)? {
        push_told(
            alloc,
            points,
            files,
            location,
            b"shown ",
            schedule,
            &mut told.text,
        )?;
        told.shown += 1;
        return Ok(());
    }
    push_told(
        alloc,
        points,
        files,
        location,
        b"not shown ",
        &[],
        &mut told.text,
    )?;
    Ok(())
}

/// The lines of a schedule that were found for the location of this number among the suspects.
fn schedule_at(wanted: &[Wanted], at: usize) -> &[u8] {
    match wanted.get(at) {
        Some(found) => found.schedule.as_slice(),
        None => &[],
    }
}

/// What is told of the locations, where this was found.
fn tell_all(
    alloc: Global,
    points: &Points,
    files: &Files,
    suspects: &[u32],
    wanted: &[Wanted],
) -> Result<Searched, NoMemory>
    requires lowered { IsLowered points.now }
    requires named { CanBeNamed files.now points.now }
    requires there { All (λ n. n < length points.now.places) suspects.now }
    ensures { IfOk result (λ told. AreTold files.now points.now suspects.now told.text.items told.shown) }
{
    let mut told = Searched {
        text: Vec::new(alloc),
        shown: 0,
    };
    for at in 0..suspects.len() {
        tell(
            alloc,
            points,
            files,
            suspects[at],
            schedule_at(wanted, at),
            &mut told,
        )?;
    }
    Ok(told)
}

/// Appends the line of totals.
fn push_total(alloc: Global, out: &mut Vec<u8>, total: usize, shown: usize) -> Result<(), NoMemory>
    ensures { OnOk result (out.new.items ≡ out.old.items ++ total_text total shown) }
{
    let line = format!(in alloc; "total {total}, shown {shown}\n")?;
    out.extend_from_slice(line.as_bytes())?;
    Ok(())
}

/// Looks for each of these locations, in order, for a schedule after which two threads are about to access one
/// cell of it, one of them writing, and tells what was found. Each schedule that it tells was played by `play`,
/// and there is a race at the location in what that told. That none is told says nothing.
///
/// All runs together have at most as many steps as the search may take, and those that shorten schedules too;
/// one seed gives one text.
pub fn search(
    alloc: Global,
    points: &Points,
    files: &Files,
    suspects: &[u32],
    search: Search,
) -> Result<Searched, NoMemory>
    requires lowered { IsLowered points.now }
    requires named { CanBeNamed files.now points.now }
    requires there { All (λ n. n < length points.now.places) suspects.now }
    ensures { IfOk result (IsSearched files.now points.now suspects.now) }
{
    let wanted = schedules_of(alloc, points, suspects, search)?;
    let told = tell_all(alloc, points, files, suspects, &wanted)?;
    let Searched { mut text, shown } = told;
    push_total(alloc, &mut text, suspects.len(), shown)?;
    Ok(Searched { text, shown })
}
