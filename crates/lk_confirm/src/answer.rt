//! What a command comes to, before anything is written.
ghost use Rattle.std.specs.Prelude.{◌≡◌, ◌≤◌, true, IfErr, IfOk, length, map, string_bytes};
ghost use Rattle.lk_words.specs.Seen.{seen};
ghost use Rattle.lk_words.specs.Words.{is_in_bounds};
ghost use Rattle.lk_words.specs.declared.task.WordsFault.TheVariants.{Usage};
ghost use Rattle.lk_sources.specs.Readable.{AreFew, AreNamed, AreShort, IsReadable};
ghost use Rattle.lk_sources.specs.Reading.{longest_sources};
ghost use Rattle.lk_sources.specs.Shelves.{shelved};
ghost use Rattle.lk_confirm.specs.Answer.{Answers, AnswersSplit, AnswersWords, Judges, JudgesListed, ShowsFault};
ghost use Rattle.lk_confirm.specs.Seen.{AsksNothing, seen_split};
ghost use Rattle.lk_confirm.specs.Words.{IsNoCommand};

use crate::analysis::analyse;
use crate::texts::{refused_line, unread_line};
use crate::words::{Asked, Split, asked_by, split_of};
use lk_base::{Files, Name, NoMemory, Status};
use lk_io::Shelf;
use lk_sources::{Source, SourcesFault, Texts, accept, commands_are_in_bounds, listed_names, read};
use lk_witness::Search;
use lk_words::WordsFault;
use std::alloc::Global;

/// What a command comes to: the text that is to be written.
#[derive(Drop)]
pub(crate) enum Answer {
    /// What was found, and the status that tells whether something was.
    Report { text: Vec<u8>, status: Status },
    /// The line of a refusal.
    Refusal { line: Vec<u8> },
    /// The line for a file that can't be read.
    Unread { line: Vec<u8> },
}

/// The line of why files make no program.
pub(crate) fn refuse(alloc: Global, fault: SourcesFault) -> Result<Answer, NoMemory>
    ensures { IfOk result (ShowsFault fault) }
{
    match fault {
        SourcesFault::Refused { file, refusal } => Ok(Answer::Refusal {
            line: refused_line(alloc, file.bytes(), &refusal)?,
        }),
        SourcesFault::Unread { name } => Ok(Answer::Unread {
            line: unread_line(alloc, name.bytes())?,
        }),
        SourcesFault::NoMemory => Err(NoMemory),
    }
}

/// What sources come to, where `--externs` lists these names, and races are looked for so.
fn judge_sources(
    alloc: Global,
    files: Files,
    externs: Vec<Name>,
    sources: &[Source],
    how: Search,
) -> Result<Answer, NoMemory>
    requires short { AreShort longest_sources sources.now }
    requires named { AreNamed files sources.now }
    requires few { AreFew (length sources.now) }
    ensures { IfOk result (JudgesListed files externs.items sources.now) }
{
    match accept(alloc, externs, sources, files) {
        Ok(accepted) => {
            let answer = analyse(alloc, accepted, how)?;
            Ok(answer)
        }
        Err(fault) => {
            let answer = refuse(alloc, fault)?;
            Ok(answer)
        }
    }
}

/// What files come to that are read, where races are looked for so.
fn judge(alloc: Global, texts: Texts, how: Search) -> Result<Answer, NoMemory>
    requires readable { IsReadable texts }
    requires few { AreFew (length texts.sources) }
    ensures { IfOk result (Judges texts.files texts.externs texts.sources) }
{
    let Texts {
        mut files,
        externs,
        beside: _,
        sources,
    } = texts;
    match listed_names(alloc, &mut files, externs.list()) {
        Ok(names) => {
            let answer = judge_sources(alloc, files, names, sources.list(), how)?;
            Ok(answer)
        }
        Err(fault) => {
            let answer = refuse(alloc, fault)?;
            Ok(answer)
        }
    }
}

/// What a command comes to.
fn examine<F: Shelf>(alloc: Global, asked: &Asked<'_>, shelf: &mut F) -> Result<Answer, NoMemory>
    requires { is_in_bounds (seen asked.now.check) ≡ true }
    ensures answer { IfOk result
        (Answers (seen asked.now.check) (shelved F.held F.bad F.faults shelf.old shelf.new)) }
    ensures held { F.held shelf.new ≡ F.held shelf.old }
    ensures later { F.faults shelf.old ≤ F.faults shelf.new }
{
    match read(alloc, &asked.check, shelf) {
        Ok(texts) => {
            let answer = judge(alloc, texts, asked.search)?;
            Ok(answer)
        }
        Err(fault) => {
            let answer = refuse(alloc, fault)?;
            Ok(answer)
        }
    }
}

/// What words come to that were taken apart.
fn answer_split<F: Shelf>(
    alloc: Global,
    split: &Split<'_>,
    shelf: &mut F,
) -> Result<Answer, WordsFault>
    ensures answer { IfOk result
        (AnswersSplit (seen_split split.now) (shelved F.held F.bad F.faults shelf.old shelf.new)) }
    ensures usage { IfErr result (λ fault. fault ≡ Usage → AsksNothing (seen_split split.now)) }
    ensures unread { IfErr result (λ fault. fault ≡ Usage → shelf.new ≡ shelf.old) }
    ensures held { F.held shelf.new ≡ F.held shelf.old }
    ensures later { F.faults shelf.old ≤ F.faults shelf.new }
{
    commands_are_in_bounds();
    let asked = asked_by(alloc, split)?;
    match examine(alloc, &asked, shelf) {
        Ok(answer) => Ok(answer),
        Err(NoMemory) => Err(WordsFault::NoMemory),
    }
}

/// What words come to.
pub(crate) fn answer_words<F: Shelf>(
    alloc: Global,
    words: &[String],
    shelf: &mut F,
) -> Result<Answer, WordsFault>
    ensures answer { IfOk result (AnswersWords (map string_bytes words.now)
        (shelved F.held F.bad F.faults shelf.old shelf.new)) }
    ensures usage { IfErr result (λ fault. fault ≡ Usage → IsNoCommand (map string_bytes words.now)) }
    ensures unread { IfErr result (λ fault. fault ≡ Usage → shelf.new ≡ shelf.old) }
    ensures held { F.held shelf.new ≡ F.held shelf.old }
    ensures later { F.faults shelf.old ≤ F.faults shelf.new }
{
    match split_of(alloc, words) {
        Ok(Some(split)) => answer_split(alloc, &split, shelf),
        Ok(None) => Err(WordsFault::Usage),
        Err(NoMemory) => Err(WordsFault::NoMemory),
    }
}
