//! What a command comes to, before anything is written.
ghost use Rattle.std.specs.Prelude.{◌≡◌, ◌≤◌, true, IfOk, length, map};
ghost use Rattle.lk_words.specs.Seen.{seen, seen_task};
ghost use Rattle.lk_words.specs.Words.{beside, is_in_bounds};
ghost use Rattle.lk_sources.specs.Readable.{AreFew, AreNamed, AreShort, IsReadable};
ghost use Rattle.lk_sources.specs.Reading.{longest_beside, longest_sources, names_of};
ghost use Rattle.lk_sources.specs.Shelves.{shelved};
ghost use Rattle.lk_top.specs.Answer.{Answers, Judges, JudgesFor, ShowsFault};
ghost use Rattle.lk_top.specs.Errands.{seen_errand};

use crate::analysis::analyse;
use crate::errand::{Asked, asked_of};
use crate::texts::{refused_line, unread_line};
use lk_base::{Files, NoMemory, Status};
use lk_io::Shelf;
use lk_sources::{Source, SourcesFault, Texts, accept, read};
use lk_words::{Command, Task};
use std::alloc::Global;

/// What a command comes to: the text that is to be written.
#[derive(Drop)]
pub(crate) enum Answer {
    /// The whole report, and the status that tells whether a location is suspect.
    Report { text: Vec<u8>, status: Status },
    /// The line of a refusal.
    Refusal { line: Vec<u8> },
    /// The line for a file that can't be read.
    Unread { line: Vec<u8> },
}

/// The line of why files make no program.
pub(crate) fn refuse(alloc: Global, fault: SourcesFault) -> Result<Answer, NoMemory>
    ensures { IfOk result (ShowsFault fault) }
{
    match fault {
        SourcesFault::Refused { file, refusal } => Ok(Answer::Refusal {
            line: refused_line(alloc, file.bytes(), &refusal)?,
        }),
        SourcesFault::Unread { name } => Ok(Answer::Unread {
            line: unread_line(alloc, name.bytes())?,
        }),
        SourcesFault::NoMemory => Err(NoMemory),
    }
}

/// What sources come to, of which this is asked.
fn judge_for(
    alloc: Global,
    files: Files,
    sources: &[Source],
    asked: Asked,
) -> Result<Answer, NoMemory>
    requires short { AreShort longest_sources sources.now }
    requires named { AreNamed files sources.now }
    requires few { AreFew (length sources.now) }
    ensures { IfOk result (JudgesFor (seen_errand asked.errand) files asked.externs.items sources.now) }
{
    let Asked { externs, errand } = asked;
    match accept(alloc, externs, sources, files) {
        Ok(accepted) => {
            let answer = analyse(alloc, accepted, &errand)?;
            Ok(answer)
        }
        Err(fault) => {
            let answer = refuse(alloc, fault)?;
            Ok(answer)
        }
    }
}

/// What files come to that are read.
fn judge(alloc: Global, task: &Task<'_>, texts: Texts) -> Result<Answer, NoMemory>
    requires readable { IsReadable texts }
    requires few { AreFew (length texts.sources) }
    requires short { AreShort (longest_beside (seen_task task.now)) texts.beside }
    requires named { map (λ s. s.name) texts.beside ≡ names_of (beside (seen_task task.now)) }
    ensures { IfOk result (Judges (seen_task task.now) texts) }
{
    let Texts {
        mut files,
        externs,
        beside,
        sources,
    } = texts;
    match asked_of(alloc, task, &mut files, externs.list(), beside.list()) {
        Ok(asked) => {
            let answer = judge_for(alloc, files, sources.list(), asked)?;
            Ok(answer)
        }
        Err(fault) => {
            let answer = refuse(alloc, fault)?;
            Ok(answer)
        }
    }
}

/// What a command comes to.
pub(crate) fn examine<F: Shelf>(
    alloc: Global,
    command: &Command<'_>,
    shelf: &mut F,
) -> Result<Answer, NoMemory>
    requires { is_in_bounds (seen command.now) ≡ true }
    ensures answer { IfOk result
        (Answers (seen command.now) (shelved F.held F.bad F.faults shelf.old shelf.new)) }
    ensures held { F.held shelf.new ≡ F.held shelf.old }
    ensures later { F.faults shelf.old ≤ F.faults shelf.new }
{
    match read(alloc, command, shelf) {
        Ok(texts) => {
            let answer = judge(alloc, &command.task, texts)?;
            Ok(answer)
        }
        Err(fault) => {
            let answer = refuse(alloc, fault)?;
            Ok(answer)
        }
    }
}
