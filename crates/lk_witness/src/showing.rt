//! Whether a schedule shows a race at a location.
ghost use Rattle.std.specs.List.{list_any};
ghost use Rattle.std.specs.Prelude.{◌≡◌, ◌<◌, true, IfOk, length, map};
ghost use Rattle.std.specs.Str.{bytes_eq};
ghost use Rattle.lk_facts.specs.Lowered.{IsLowered};
ghost use Rattle.lk_play.specs.Schedules.{lines_of};
ghost use Rattle.lk_report.specs.Names.{CanBeNamed};
ghost use Rattle.lk_witness.specs.Shown.{Shows, ShowsBy, has_line, race_line};

use lk_base::{Files, NoMemory};
use lk_facts::Points;
use lk_play::{ScheduleFault, Turn, play, schedule};
use lk_report::text_of;
use std::alloc::{AllocError, Global};

/// The most bytes of a schedule file.
const MOST_BYTES: usize = 65536;

/// The lines of a text.
fn lines_of<'a>(alloc: Global, text: &'a [u8]) -> Result<Vec<&'a [u8]>, AllocError>
    ensures { IfOk result (λ lines. map (λ part. part.now) lines.items ≡ lines_of text.now) }
{
    text.split(|byte| *byte == b'\n').collect(alloc)
}

/// Whether one of the lines is this one.
fn is_among(lines: &[&[u8]], line: &[u8]) -> bool
    ensures { result ≡ list_any (λ part. bytes_eq part.now line.now) lines.now }
{
    lines.iter().any(|part| *part == line)
}

/// Whether one of the lines of a text is this one.
fn has_line(alloc: Global, text: &[u8], line: &[u8]) -> Result<bool, NoMemory>
    ensures { IfOk result (λ has. has ≡ has_line text.now line.now) }
{
    let lines = lines_of(alloc, text)?;
    Ok(is_among(&lines, line))
}

/// The line of a race at a location.
fn race_line(
    alloc: Global,
    points: &Points,
    files: &Files,
    location: u32,
) -> Result<Vec<u8>, NoMemory>
    requires named { CanBeNamed files.now points.now }
    requires there { location < length points.now.places }
    ensures { IfOk result (λ line. line.items ≡ race_line files.now points.now location) }
{
    let text = text_of(alloc, location, points, files)?;
    let mut line = Vec::from_slice(alloc, b"race ")?;
    line.extend_from_slice(&text)?;
    Ok(line)
}

/// Whether the text of the play by these turns has the line of a race at the location.
fn shows_by(
    alloc: Global,
    points: &Points,
    files: &Files,
    location: u32,
    turns: &[Turn],
) -> Result<bool, NoMemory>
    requires lowered { IsLowered points.now }
    requires named { CanBeNamed files.now points.now }
    requires there { location < length points.now.places }
    ensures { IfOk result (λ shows. shows ≡ true → ShowsBy files.now points.now location turns.now) }
{
    let line = race_line(alloc, points, files, location)?;
    let played = play(alloc, points, files, turns)?;
    let has = has_line(alloc, &played.text, &line)?;
    Ok(has)
}

/// Whether bytes are a schedule file by which there is a race at the location. Without turns there is none.
pub(crate) fn shows(
    alloc: Global,
    points: &Points,
    files: &Files,
    location: u32,
    bytes: &[u8],
) -> Result<bool, NoMemory>
    requires lowered { IsLowered points.now }
    requires named { CanBeNamed files.now points.now }
    requires there { location < length points.now.places }
    ensures { IfOk result (λ shows. shows ≡ true → Shows files.now points.now location bytes.now) }
{
    if bytes.is_empty() || bytes.len() > MOST_BYTES {
        return Ok(false);
    }
    match schedule(alloc, bytes) {
        Ok(turns) => shows_by(alloc, points, files, location, &turns),
        Err(ScheduleFault::Bad(_)) => Ok(false),
        Err(ScheduleFault::NoMemory) => Err(NoMemory),
    }
}
