//! What accepted sources come to: the program that they make, its points, and what is reported of these.
ghost use Rattle.std.specs.Prelude.{◌≡◌, ◌<◌, ◌++◌, All, IfOk, OnOk, length, map};
ghost use Rattle.lk_facts.specs.InRange.{IsInRange};
ghost use Rattle.lk_facts.specs.Lowered.{IsLowered};
ghost use Rattle.lk_graph.specs.Single.{ArePlaceNodes};
ghost use Rattle.lk_lower_unit.specs.Wholes.{IsOfSources};
ghost use Rattle.lk_program.specs.Program.{StandIn};
ghost use Rattle.lk_report.specs.Names.{CanBeNamed};
ghost use Rattle.lk_report.specs.Report.{IsVerdictThere};
ghost use Rattle.lk_sources.specs.Accepting.{AreChecked};
ghost use Rattle.lk_sources.specs.Readable.{AreFew};
ghost use Rattle.lk_confirm.specs.Analysis.{ArePointsOf, is_suspect, status_of, suspect_of, suspects_of};
ghost use Rattle.lk_confirm.specs.Answer.{Analyses, HasMainIn, JudgesPoints, JudgesWhole, ShowsSearch, TellsAtMain};
ghost use Rattle.lk_types.specs.Building.{IsTable};

use crate::answer::{Answer, refuse};
use lk_base::{Code, Files, Name, NoMemory, Refusal, Status};
use lk_facts::{Points, Verdict, VerdictState};
use lk_lower_parts::{LowerFault, main_spot};
use lk_lower_unit::lower;
use lk_point_spots::points_stand_in_files;
use lk_program::program_of;
use lk_solve::{SolveFault, verdicts_of};
use lk_sources::{Accepted, refused_in};
use lk_typed::Whole;
use lk_witness::{Search, search};
use std::alloc::Global;

/// The line of a refusal with this code, without a name, at the name of `main`.
fn refuse_at_main(
    alloc: Global,
    files: &Files,
    whole: &Whole,
    code: Code,
) -> Result<Answer, NoMemory>
    requires { HasMainIn files.now whole.now }
    ensures { IfOk result (TellsAtMain files.now whole.now code) }
{
    let spot = main_spot(whole).unwrap();
    let name = Name::empty(alloc);
    let answer = refuse(alloc, refused_in(files, Refusal { code, spot, name }))?;
    Ok(answer)
}

/// Whether a state is that of a suspect location.
fn is_suspect(state: VerdictState) -> bool
    ensures { result ≡ is_suspect state }
{
    match state {
        VerdictState::Guarded | VerdictState::Unshared => false,
        VerdictState::Suspect => true,
    }
}

/// Puts the location of a verdict behind the suspect ones, where it is suspect.
fn put_suspect(suspects: &mut Vec<u32>, verdict: &Verdict) -> Result<(), NoMemory>
    ensures { OnOk result (suspects.new.items ≡ suspects.old.items ++ suspect_of verdict.now) }
{
    if is_suspect(verdict.state) {
        suspects.push(verdict.location)?;
    }
    Ok(())
}

/// The suspect locations, in the order of the verdicts.
fn suspects_of(alloc: Global, verdicts: &[Verdict]) -> Result<Vec<u32>, NoMemory>
    ensures { IfOk result (λ suspects. suspects.items ≡ suspects_of verdicts.now) }
{
    let mut suspects = Vec::new(alloc);
    for verdict in verdicts {
        put_suspect(&mut suspects, verdict)?;
    }
    Ok(suspects)
}

/// The status that tells whether something is shown.
fn status_of(shown: usize) -> Status
    ensures { result ≡ status_of shown }
{
    if shown == 0 {
        Status::Clean
    } else {
        Status::Suspects
    }
}

/// What is found of the suspect locations.
fn told(
    alloc: Global,
    files: &Files,
    points: &Points,
    verdicts: &[Verdict],
    how: Search,
) -> Result<Answer, NoMemory>
    requires named { CanBeNamed files.now points.now }
    requires lowered { IsLowered points.now }
    requires there { All (IsVerdictThere points.now) verdicts.now }
    ensures { IfOk result (ShowsSearch files.now points.now verdicts.now) }
{
    let suspects = suspects_of(alloc, verdicts)?;
    let found = search(alloc, points, files, &suspects, how)?;
    let status = status_of(found.shown);
    Ok(Answer::Report {
        text: found.text,
        status,
    })
}

/// Does nothing when run: it tells of points what holds of all points, that each number in them is in range
/// and that their types are a table.
fn are_in_range(points: &Points)
    ensures in_range { IsInRange points.now }
    ensures table { IsTable points.now.types }
{
    points.count();
    points.types().is_table();
}

/// What a program of these points comes to, where races are looked for so.
fn judge_points(
    alloc: Global,
    files: &Files,
    whole: &Whole,
    points: &Points,
    how: Search,
) -> Result<Answer, NoMemory>
    requires main { HasMainIn files.now whole.now }
    requires named { CanBeNamed files.now points.now }
    requires places { ArePlaceNodes points.now }
    requires made { ArePointsOf whole.now points.now }
    ensures { IfOk result (JudgesPoints files.now whole.now points.now) }
{
    match verdicts_of(alloc, points) {
        Ok(verdicts) => {
            let answer = told(alloc, files, points, &verdicts, how)?;
            Ok(answer)
        }
        Err(SolveFault::TooManyLabels) => {
            let answer = refuse_at_main(alloc, files, whole, Code::TooManyLabels)?;
            Ok(answer)
        }
        Err(SolveFault::NoMemory) => Err(NoMemory),
    }
}

/// What the program that sources make comes to. Each location and lock place is a label.
fn judge_whole(alloc: Global, files: &Files, whole: &Whole, how: Search) -> Result<Answer, NoMemory>
    requires of_sources { IsOfSources whole.now }
    requires some { 0 < length files.now }
    requires main { HasMainIn files.now whole.now }
    requires stand { StandIn (length files.now) (map (λ linked. linked.unit) whole.now.sources) }
    ensures { IfOk result (JudgesWhole files.now whole.now) }
{
    points_stand_in_files();
    match lower(alloc, whole) {
        Ok(points) => {
            are_in_range(&points);
            let answer = judge_points(alloc, files, whole, &points, how)?;
            Ok(answer)
        }
        Err(LowerFault::TooManyPoints) => {
            let answer = refuse_at_main(alloc, files, whole, Code::TooManyPoints)?;
            Ok(answer)
        }
        Err(LowerFault::TooManyPlaces) => {
            let answer = refuse_at_main(alloc, files, whole, Code::TooManyLabels)?;
            Ok(answer)
        }
        Err(LowerFault::NoMemory) => Err(NoMemory),
    }
}

/// What accepted sources come to.
pub(crate) fn analyse(alloc: Global, accepted: Accepted, how: Search) -> Result<Answer, NoMemory>
    requires checked { AreChecked accepted }
    requires few { AreFew (length accepted.sources.items) }
    ensures { IfOk result (Analyses accepted) }
{
    match program_of(alloc, accepted) {
        Ok(program) => {
            let answer = judge_whole(alloc, &program.files, &program.whole, how)?;
            Ok(answer)
        }
        Err(fault) => {
            let answer = refuse(alloc, fault)?;
            Ok(answer)
        }
    }
}
