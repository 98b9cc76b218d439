//! What is asked of sources, by the files beside them.
ghost use Rattle.std.specs.Prelude.{◌≡◌, ◌<◌, IfOk, IfErr, length, map};
ghost use Rattle.lk_sources.specs.Readable.{AreShort};
ghost use Rattle.lk_sources.specs.Reading.{longest_beside, longest_externs, names_of};
ghost use Rattle.lk_top.specs.Answer.{IsAsked, RefusesAsked, RefusesErrand};
ghost use Rattle.lk_top.specs.Errands.{TellsBadSchedule, seen_errand};
ghost use Rattle.lk_top.specs.Outcome.{IsErrand, PlaysBy};
ghost use Rattle.lk_words.specs.Seen.{seen_task};
ghost use Rattle.lk_words.specs.Words as words;

use lk_base::{Code, Files, Name};
use lk_play::{ScheduleFault, Turn, schedule as turns_of};
use lk_sources::{Source, SourcesFault, listed_names, refused_at};
use lk_words::Task;
use std::alloc::Global;

/// What is done with accepted sources.
#[derive(Drop)]
pub(crate) enum Errand {
    /// They are checked for races.
    Check,
    /// The order of their mutexes is told.
    Order,
    /// A run of them is played.
    Play {
        /// By these turns.
        turns: Vec<Turn>,
    },
}

/// What is asked of sources.
#[derive(Drop)]
pub(crate) struct Asked {
    /// The names that the file of `--externs` lists.
    pub externs: Vec<Name>,
    /// What is done with them where they are accepted.
    pub errand: Errand,
}

/// The play by the schedule in the first of these files, or its refusal (17) at its first bad line.
fn play_by(alloc: Global, files: &mut Files, beside: &[Source]) -> Result<Errand, SourcesFault>
    requires some { 0 < length beside.now }
    requires short { AreShort 65536 beside.now }
    ensures ok { IfOk result (λ errand. PlaysBy beside.now (seen_errand errand)) }
    ensures same { IfOk result (λ errand. files.new ≡ files.old) }
    ensures err { IfErr result (TellsBadSchedule files.old beside.now) }
{
    let [schedule, ..] = beside else {
        unreachable!()
    };
    match turns_of(alloc, schedule.bytes.list()) {
        Ok(turns) => Ok(Errand::Play { turns }),
        Err(ScheduleFault::Bad(line)) => {
            let name = schedule.name.copy()?;
            Err(refused_at(alloc, files, name, Code::BadSchedule, line))
        }
        Err(ScheduleFault::NoMemory) => Err(SourcesFault::NoMemory),
    }
}

/// What a task asks, by the file that it reads beside the sources.
fn errand_of(
    alloc: Global,
    task: &Task<'_>,
    files: &mut Files,
    beside: &[Source],
) -> Result<Errand, SourcesFault>
    requires short { AreShort (longest_beside (seen_task task.now)) beside.now }
    requires named { map (λ s. s.name) beside.now ≡ names_of (words.beside (seen_task task.now)) }
    ensures ok { IfOk result (λ errand. IsErrand (seen_task task.now) beside.now (seen_errand errand)) }
    ensures same { IfOk result (λ errand. files.new ≡ files.old) }
    ensures err { IfErr result (RefusesErrand (seen_task task.now) files.old beside.now) }
{
    match task {
        Task::Check => Ok(Errand::Check),
        Task::Order => Ok(Errand::Order),
        Task::Play { schedule: _ } => play_by(alloc, files, beside),
    }
}

/// What is asked of sources: by the file of `--externs`, which is told first where it is bad, and then by the file
/// that the task reads beside the sources.
pub(crate) fn asked_of(
    alloc: Global,
    task: &Task<'_>,
    files: &mut Files,
    externs: &[Source],
    beside: &[Source],
) -> Result<Asked, SourcesFault>
    requires short_externs { AreShort longest_externs externs.now }
    requires short { AreShort (longest_beside (seen_task task.now)) beside.now }
    requires named { map (λ s. s.name) beside.now ≡ names_of (words.beside (seen_task task.now)) }
    ensures ok { IfOk result (IsAsked (seen_task task.now) externs.now beside.now) }
    ensures same { IfOk result (λ asked. files.new ≡ files.old) }
    ensures err { IfErr result (RefusesAsked (seen_task task.now) files.old externs.now beside.now) }
{
    let externs = listed_names(alloc, files, externs)?;
    let errand = errand_of(alloc, task, files, beside)?;
    Ok(Asked { externs, errand })
}
