//! Plays of a program by the turns of a schedule.
ghost use Rattle.std.specs.Prelude.{◌≡◌, IfOk};
ghost use Rattle.lk_facts.specs.InRange.{IsInRange};
ghost use Rattle.lk_facts.specs.Lowered.{IsLowered};
ghost use Rattle.lk_report.specs.Names.{CanBeNamed};
ghost use Rattle.lk_top.specs.Analysis.{ArePointsOf};
ghost use Rattle.lk_top.specs.Answer.{HasMainIn, JudgesPoints, ShowsPlay};
ghost use Rattle.lk_top.specs.Outcome.{Plays};
ghost use Rattle.lk_top.specs.Plays.{status_of_race};
ghost use Rattle.lk_types.specs.Building.{IsTable};

use crate::analysis::refuse_at_main;
use crate::answer::Answer;
use lk_base::{Code, Files, NoMemory, Status};
use lk_facts::Points;
use lk_label::{LabelFault, labels};
use lk_play::{Played, Turn, play};
use lk_safe::verdicts_are_safe;
use lk_typed::Whole;
use std::alloc::Global;

/// The status of a play: whether it tells of a race.
fn status_of_play(raced: bool) -> Status
    ensures { result ≡ status_of_race raced }
{
    match raced {
        true => Status::Suspects,
        false => Status::Clean,
    }
}

/// The text of a play by these turns.
fn played(alloc: Global, files: &Files, points: &Points, turns: &[Turn]) -> Result<Answer, NoMemory>
    requires named { CanBeNamed files.now points.now }
    requires in_range { IsInRange points.now }
    requires table { IsTable points.now.types }
    requires lowered { IsLowered points.now }
    ensures { IfOk result (ShowsPlay files.now points.now turns.now) }
{
    verdicts_are_safe();
    let Played { text, raced } = play(alloc, points, files, turns)?;
    let status = status_of_play(raced);
    Ok(Answer::Report { text, status })
}

/// What a program of these points comes to where a run of it is played: as in a check, it has no more labels than
/// are analysed.
pub(crate) fn play_points(
    alloc: Global,
    files: &Files,
    whole: &Whole,
    points: &Points,
    turns: &[Turn],
) -> Result<Answer, NoMemory>
    requires main { HasMainIn files.now whole.now }
    requires named { CanBeNamed files.now points.now }
    requires made { ArePointsOf whole.now points.now }
    ensures { IfOk result (λ shown. JudgesPoints files.now whole.now points.now shown (Plays turns.now)) }
{
    match labels(alloc, points) {
        Ok(_labels) => {
            let answer = played(alloc, files, points, turns)?;
            Ok(answer)
        }
        Err(LabelFault::TooMany) => {
            let answer = refuse_at_main(alloc, files, whole, Code::TooManyLabels)?;
            Ok(answer)
        }
        Err(LabelFault::NoMemory) => Err(NoMemory),
    }
}
