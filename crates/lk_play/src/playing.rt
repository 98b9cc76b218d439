//! Plays by a schedule.
ghost use Rattle.std.specs.Prelude.{IfOk};
ghost use Rattle.lk_facts.specs.Lowered.{IsLowered};
ghost use Rattle.lk_play.specs.Played.{IsPlayed};
ghost use Rattle.lk_report.specs.Names.{CanBeNamed};

use crate::lines::{has_race, lines_text};
use crate::running::lines_of;
use crate::schedules::Turn;
use lk_base::{Files, NoMemory};
use lk_facts::Points;
use std::alloc::Global;

/// What was played.
#[derive(Drop)]
pub struct Played {
    /// Its text, a line for each access of a location, for each race that is new, and for its end.
    pub text: Vec<u8>,
    /// Whether it tells of a race.
    pub raced: bool,
}

/// Plays a program without strings by the turns of a schedule.
///
/// `T W` is one step of the thread T with the word W, and `T W *` such steps until T is about to touch a
/// cell. The play ends where the turns are done, where a thread doesn't move, or before a 65,537th step. Its
/// text tells of each step that touches a location, and behind it `race` and the location of each race that
/// wasn't there before; last, how it ends. Each race that it tells is one in a state to which a run of the
/// program comes. It computes no verdict.
pub fn play(
    alloc: Global,
    points: &Points,
    files: &Files,
    turns: &[Turn],
) -> Result<Played, NoMemory>
    requires lowered { IsLowered points.now }
    requires named { CanBeNamed files.now points.now }
    ensures { IfOk result (IsPlayed files.now points.now turns.now) }
{
    let lines = lines_of(alloc, points, turns)?;
    let text = lines_text(alloc, points, files, &lines)?;
    let raced = has_race(&lines);
    Ok(Played { text, raced })
}
