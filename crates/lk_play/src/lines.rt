//! The lines of what a play tells, and their text.
ghost use Rattle.std.specs.Prelude.{◌≡◌, ◌<◌, ◌++◌, All, IfOk, OnOk, length};
ghost use Rattle.std.specs.Fmt.{decimal};
ghost use Rattle.lk_report.specs.Names.{CanBeNamed, place_text};
ghost use Rattle.lk_report.specs.Report.{point_text};
ghost use Rattle.lk_play.specs.Calls.{IsLineThere};
ghost use Rattle.lk_play.specs.Lines as spec;

use lk_base::{Files, NoMemory};
use lk_facts::Points;
use lk_report::{place_of, text_of};
use lk_values::Why;
use std::alloc::Global;

/// How a play ends.
#[derive(Clone, Copy)]
pub enum Ending {
    /// The turns are done.
    Schedule,
    /// A step more would be taken than a play may have.
    Limit,
    /// The thread waits, for a mutex or for another thread to end.
    Waits(u32),
    /// The step of the thread is undefined.
    Undefined(u32, Why),
    /// The thread or the process has ended.
    Ended(u32),
    /// There is no thread of this number.
    NoThread(u32),
    /// The step of the thread would make a thread or an object of a number that none may have.
    Full(u32),
}

/// A line of what a play tells.
#[derive(Clone, Copy)]
pub enum Line {
    /// A thread touched a cell.
    Access {
        /// The thread.
        thread: u32,
        /// Whether it wrote the cell.
        writes: bool,
        /// The location of the cell.
        location: u32,
        /// The point of the access.
        point: u32,
    },
    /// There is a race at this location that wasn't there before.
    Race(u32),
    /// The play ends.
    End(Ending),
}

/// The name of a cause.
fn why_text(why: Why) -> &'static str
    ensures { result.now ≡ spec.why_text why }
{
    match why {
        Why::Overflow => "Overflow",
        Why::DivideByZero => "DivideByZero",
        Why::Shift => "Shift",
        Why::Indeterminate => "Indeterminate",
        Why::Null => "Null",
        Why::Dead => "Dead",
        Why::Outside => "Outside",
        Why::WrongType => "WrongType",
        Why::ConstText => "ConstText",
        Why::NotOwner => "NotOwner",
        Why::NotReady => "NotReady",
        Why::OwnedLock => "OwnedLock",
        Why::BadFree => "BadFree",
        Why::BadJoin => "BadJoin",
        Why::NoValue => "NoValue",
    }
}

/// Appends a word and a number.
fn push_numbered(alloc: Global, out: &mut Vec<u8>, word: &[u8], number: u32) -> Result<(), NoMemory>
    ensures { OnOk result (out.new.items ≡ out.old.items ++ (word.now ++ decimal number)) }
{
    let written = format!(in alloc; "{number}")?;
    out.extend_from_slice(word)?;
    out.extend_from_slice(written.as_bytes())?;
    Ok(())
}

/// Appends how a play ends.
fn push_ending(alloc: Global, out: &mut Vec<u8>, ending: Ending) -> Result<(), NoMemory>
    ensures { OnOk result (out.new.items ≡ out.old.items ++ spec.ending_text ending) }
{
    match ending {
        Ending::Schedule => out.extend_from_slice(b"schedule")?,
        Ending::Limit => out.extend_from_slice(b"limit")?,
        Ending::Waits(thread) => push_numbered(alloc, out, b"waits ", thread)?,
        Ending::Undefined(thread, why) => {
            push_numbered(alloc, out, b"undefined ", thread)?;
            out.push(b' ')?;
            out.extend_from_slice(why_text(why).as_bytes())?;
        }
        Ending::Ended(thread) => push_numbered(alloc, out, b"ended ", thread)?,
        Ending::NoThread(thread) => push_numbered(alloc, out, b"no thread ", thread)?,
        Ending::Full(thread) => push_numbered(alloc, out, b"full ", thread)?,
    }
    Ok(())
}

/// What an access does, between blanks.
fn verb(writes: bool) -> &'static str
    ensures { result.now ≡ spec.verb writes }
{
    if writes { " writes " } else { " reads " }
}

/// Appends the place of a point in a source.
fn push_point(
    alloc: Global,
    out: &mut Vec<u8>,
    points: &Points,
    files: &Files,
    point: u32,
) -> Result<(), NoMemory>
    requires named { CanBeNamed files.now points.now }
    requires there { point < length points.now.points }
    ensures { OnOk result (out.new.items ≡ out.old.items ++ point_text files.now points.now point) }
{
    let place = place_of(alloc, points.spot(point), files)?;
    out.extend_from_slice(&place)?;
    Ok(())
}

/// Appends the text of a location.
fn push_location(
    alloc: Global,
    out: &mut Vec<u8>,
    points: &Points,
    files: &Files,
    location: u32,
) -> Result<(), NoMemory>
    requires named { CanBeNamed files.now points.now }
    requires there { location < length points.now.places }
    ensures { OnOk result (out.new.items ≡ out.old.items ++ place_text files.now points.now location) }
{
    let text = text_of(alloc, location, points, files)?;
    out.extend_from_slice(&text)?;
    Ok(())
}

/// Appends what a line says, without its newline.
fn push_words(
    alloc: Global,
    out: &mut Vec<u8>,
    points: &Points,
    files: &Files,
    line: Line,
) -> Result<(), NoMemory>
    requires named { CanBeNamed files.now points.now }
    requires there { IsLineThere points.now line }
    ensures { OnOk result (out.new.items ≡ out.old.items ++ spec.words_of files.now points.now line) }
{
    match line {
        Line::Access {
            thread,
            writes,
            location,
            point,
        } => {
            push_numbered(alloc, out, b"", thread)?;
            out.extend_from_slice(verb(writes).as_bytes())?;
            push_location(alloc, out, points, files, location)?;
            out.push(b' ')?;
            push_point(alloc, out, points, files, point)
        }
        Line::Race(location) => {
            out.extend_from_slice(b"race ")?;
            push_location(alloc, out, points, files, location)
        }
        Line::End(ending) => {
            out.extend_from_slice(b"end ")?;
            push_ending(alloc, out, ending)
        }
    }
}

/// The text of lines.
pub(crate) fn lines_text(
    alloc: Global,
    points: &Points,
    files: &Files,
    lines: &[Line],
) -> Result<Vec<u8>, NoMemory>
    requires named { CanBeNamed files.now points.now }
    requires there { All (IsLineThere points.now) lines.now }
    ensures { IfOk result (λ text. text.items ≡ spec.lines_text files.now points.now lines.now) }
{
    let mut text = Vec::new(alloc);
    for line in lines {
        push_words(alloc, &mut text, points, files, *line)?;
        text.push(b'\n')?;
    }
    Ok(text)
}

/// Whether a line tells of a race.
fn is_race(line: Line) -> bool
    ensures { result ≡ spec.is_race line }
{
    match line {
        Line::Access { .. } | Line::End(_) => false,
        Line::Race(_) => true,
    }
}

/// Whether some line tells of a race.
pub(crate) fn has_race(lines: &[Line]) -> bool
    ensures { result ≡ spec.has_race lines.now }
{
    lines.iter().any(|line| is_race(*line))
}
