//! What accepted sources come to: the program that they make, its points, and what is reported of these.
ghost use Rattle.std.specs.Prelude.{◌<◌, All, IfOk, length, map};
ghost use Rattle.lk_facts.specs.InRange.{IsInRange};
ghost use Rattle.lk_graph.specs.Single.{ArePlaceNodes};
ghost use Rattle.lk_lower_unit.specs.Wholes.{IsOfSources};
ghost use Rattle.lk_program.specs.Program.{StandIn};
ghost use Rattle.lk_report.specs.Names.{CanBeNamed};
ghost use Rattle.lk_report.specs.Report.{IsVerdictThere};
ghost use Rattle.lk_sources.specs.Accepting.{AreChecked};
ghost use Rattle.lk_sources.specs.Readable.{AreFew};
ghost use Rattle.lk_top.specs.Analysis.{ArePointsOf};
ghost use Rattle.lk_top.specs.Answer.{Analyses, HasMainIn, JudgesPoints, JudgesWhole, ShowsVerdicts, TellsAtMain};
ghost use Rattle.lk_top.specs.Errands.{seen_errand};
ghost use Rattle.lk_top.specs.Outcome.{Checks};
ghost use Rattle.lk_types.specs.Building.{IsTable};

use crate::answer::{Answer, refuse};
use crate::errand::Errand;
use crate::ordering::order_points;
use crate::playing::play_points;
use crate::status::status_of;
use lk_base::{Code, Files, Name, NoMemory, Refusal};
use lk_facts::{Points, Verdict};
use lk_lower_parts::{LowerFault, main_spot};
use lk_lower_unit::lower;
use lk_point_spots::points_stand_in_files;
use lk_program::program_of;
use lk_report::report;
use lk_safe::{verdicts_are_safe, verdicts_find_races};
use lk_solve::{SolveFault, verdicts_of};
use lk_sources::{Accepted, refused_in};
use lk_typed::Whole;
use std::alloc::Global;

/// The line of a refusal with this code, without a name, at the name of `main`.
pub(crate) fn refuse_at_main(
    alloc: Global,
    files: &Files,
    whole: &Whole,
    code: Code,
) -> Result<Answer, NoMemory>
    requires { HasMainIn files.now whole.now }
    ensures { IfOk result (TellsAtMain files.now whole.now code) }
{
    let spot = main_spot(whole).unwrap();
    let name = Name::empty(alloc);
    let answer = refuse(alloc, refused_in(files, Refusal { code, spot, name }))?;
    Ok(answer)
}

/// The report of verdicts.
fn told(
    alloc: Global,
    files: &Files,
    points: &Points,
    verdicts: &[Verdict],
) -> Result<Answer, NoMemory>
    requires named { CanBeNamed files.now points.now }
    requires there { All (IsVerdictThere points.now) verdicts.now }
    ensures { IfOk result (ShowsVerdicts files.now points.now verdicts.now) }
{
    let status = status_of(verdicts);
    let text = report(alloc, verdicts, points, files)?;
    Ok(Answer::Report { text, status })
}

/// Does nothing when run: it tells of points what holds of all points, that each number in them is in range
/// and that their types are a table.
fn are_in_range(points: &Points)
    ensures in_range { IsInRange points.now }
    ensures table { IsTable points.now.types }
{
    points.count();
    points.types().is_table();
}

/// What a program of these points comes to where it is checked. Each race of a run was found by the analysis, and
/// none is at a location that isn't called suspect.
fn check_points(
    alloc: Global,
    files: &Files,
    whole: &Whole,
    points: &Points,
) -> Result<Answer, NoMemory>
    requires main { HasMainIn files.now whole.now }
    requires named { CanBeNamed files.now points.now }
    requires places { ArePlaceNodes points.now }
    requires made { ArePointsOf whole.now points.now }
    ensures { IfOk result (λ shown. JudgesPoints files.now whole.now points.now shown Checks) }
{
    verdicts_are_safe();
    verdicts_find_races();
    match verdicts_of(alloc, points) {
        Ok(verdicts) => {
            let answer = told(alloc, files, points, &verdicts)?;
            Ok(answer)
        }
        Err(SolveFault::TooManyLabels) => {
            let answer = refuse_at_main(alloc, files, whole, Code::TooManyLabels)?;
            Ok(answer)
        }
        Err(SolveFault::NoMemory) => Err(NoMemory),
    }
}

/// What a program of these points comes to.
fn judge_points(
    alloc: Global,
    files: &Files,
    whole: &Whole,
    points: &Points,
    errand: &Errand,
) -> Result<Answer, NoMemory>
    requires main { HasMainIn files.now whole.now }
    requires named { CanBeNamed files.now points.now }
    requires places { ArePlaceNodes points.now }
    requires made { ArePointsOf whole.now points.now }
    ensures { IfOk result (λ shown.
        JudgesPoints files.now whole.now points.now shown (seen_errand errand.now)) }
{
    match errand {
        Errand::Check => {
            let answer = check_points(alloc, files, whole, points)?;
            Ok(answer)
        }
        Errand::Order => {
            let answer = order_points(alloc, files, whole, points)?;
            Ok(answer)
        }
        Errand::Play { turns } => {
            let answer = play_points(alloc, files, whole, points, turns)?;
            Ok(answer)
        }
    }
}

/// What the program that sources make comes to. Each location and lock place is a label.
fn judge_whole(
    alloc: Global,
    files: &Files,
    whole: &Whole,
    errand: &Errand,
) -> Result<Answer, NoMemory>
    requires of_sources { IsOfSources whole.now }
    requires some { 0 < length files.now }
    requires main { HasMainIn files.now whole.now }
    requires stand { StandIn (length files.now) (map (λ linked. linked.unit) whole.now.sources) }
    ensures { IfOk result (JudgesWhole (seen_errand errand.now) files.now whole.now) }
{
    points_stand_in_files();
    match lower(alloc, whole) {
        Ok(points) => {
            are_in_range(&points);
            let answer = judge_points(alloc, files, whole, &points, errand)?;
            Ok(answer)
        }
        Err(LowerFault::TooManyPoints) => {
            let answer = refuse_at_main(alloc, files, whole, Code::TooManyPoints)?;
            Ok(answer)
        }
        Err(LowerFault::TooManyPlaces) => {
            let answer = refuse_at_main(alloc, files, whole, Code::TooManyLabels)?;
            Ok(answer)
        }
        Err(LowerFault::NoMemory) => Err(NoMemory),
    }
}

/// What accepted sources come to.
pub(crate) fn analyse(
    alloc: Global,
    accepted: Accepted,
    errand: &Errand,
) -> Result<Answer, NoMemory>
    requires checked { AreChecked accepted }
    requires few { AreFew (length accepted.sources.items) }
    ensures { IfOk result (Analyses (seen_errand errand.now) accepted) }
{
    match program_of(alloc, accepted) {
        Ok(program) => {
            let answer = judge_whole(alloc, &program.files, &program.whole, errand)?;
            Ok(answer)
        }
        Err(fault) => {
            let answer = refuse(alloc, fault)?;
            Ok(answer)
        }
    }
}
