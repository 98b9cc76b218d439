//! The top call.
ghost use Rattle.std.specs.Prelude.{◌≡◌, None, map, IsTrue, string_bytes};
ghost use Rattle.std.specs.Option.{ForSome};
ghost use Rattle.lk_words.specs.Words.{command};
ghost use Rattle.lk_sources.specs.Shelves.{shelved, HasRisen};
ghost use Rattle.lk_top.specs.Texts.{usage_lines, no_memory_line};
ghost use Rattle.lk_top.specs.Results.{is_report};
ghost use Rattle.lk_top.specs.Run.{sunk, Got, NoneHasRisen, Reports, Refuses, Misses, Fails, AlwaysAnswers, AlwaysReports, AlwaysRefuses, IsOrNoMemory, Told, Published, leaves_output};

use crate::answer::{Answer, examine};
use lk_base::{NoMemory, Status};
use lk_io::{Failed, Shelf, Sink, write_whole};
use lk_play::schedules_are_one;
use lk_sources::{commands_are_in_bounds, one_reading, one_result};
use lk_words::{WordsFault, command};
use std::alloc::Global;

const USAGE_LINES: &[u8] =
    b"usage: lsrace check [--externs FILE] FILE...\nusage: lsrace order [--externs FILE] FILE...\nusage: lsrace play --schedule FILE [--externs FILE] FILE...\n";

const UNWRITTEN_LINE: &[u8] = b"lsrace: cannot write\n";

const NO_MEMORY_LINE: &[u8] = b"lsrace: no memory\n";

/// Writes a line to the error output, and answers the status, or that writing failed.
fn tell<E: Sink>(err: &mut E, line: &[u8], status: Status) -> Status
    ensures { Told status line.now (sunk E.gone E.faults err.old err.new) result }
{
    match write_whole(err, line) {
        Ok(()) => status,
        Err(Failed) => Status::WriteFault,
    }
}

/// Writes the report to the output, and answers its status. Where that fails, the error output is told.
fn publish<S: Sink, E: Sink>(out: &mut S, err: &mut E, text: &[u8], status: Status) -> Status
    ensures published { Published status text.now
        (sunk S.gone S.faults out.old out.new) (sunk E.gone E.faults err.old err.new) result }
    ensures quiet { IsTrue (is_report result) → err.new ≡ err.old }
{
    match write_whole(out, text) {
        Ok(()) => status,
        Err(Failed) => tell(err, UNWRITTEN_LINE, Status::WriteFault),
    }
}

/// Runs the command that the words spell: reads its files from the shelf, and writes the report of a check, or
/// the text of an order or a play, to `out` or a line to `err`.
///
/// The status says which, and its clauses when each comes. What is said of the words' outcome is said
/// where the shelf tells its files.
pub fn run<F: Shelf, S: Sink, E: Sink>(
    alloc: Global,
    words: &[String],
    shelf: &mut F,
    out: &mut S,
    err: &mut E,
) -> Status
    // A text: the output has it whole. Of a check it is the report, and no run of the program that the sources
    // make comes to a race at a location that this doesn't call suspect (`IsAnalysed`); of an order, where it
    // has no cycle, no run comes to threads that wait in a circle, each for a mutex that the next one owns
    // (`IsOrdered`); of a play it is that of the turns, and each race that it tells is at a location that the
    // verdicts call suspect (`IsPlayed`). It comes only if no count of faults rises. Sources of the subset are
    // reported, but for want of memory.
    ensures reports { IsTrue (is_report result) → ForSome (F.held shelf.old) (λ held.
        Reports (map string_bytes words.now) held (sunk S.gone S.faults out.old out.new) result) }
    ensures reports_quietly { IsTrue (is_report result) → (F.faults shelf.new ≡ F.faults shelf.old)
        × (S.faults out.new ≡ S.faults out.old) × (err.new ≡ err.old) }
    ensures always_reports { ForSome (F.held shelf.old) (λ held.
        NoneHasRisen (shelved F.held F.bad F.faults shelf.old shelf.new)
        (sunk S.gone S.faults out.old out.new) (sunk E.gone E.faults err.old err.new)
        → AlwaysReports (map string_bytes words.now) held result) }

    // A refusal: the error output has its line. It comes only if the shelf's count doesn't rise.
    ensures refuses { result ≡ Status.Refused → ForSome (F.held shelf.old) (λ held.
        Refuses (map string_bytes words.now) held (sunk E.gone E.faults err.old err.new)) }
    ensures refuses_quietly { result ≡ Status.Refused → F.faults shelf.new ≡ F.faults shelf.old }
    ensures always_refuses { ForSome (F.held shelf.old) (λ held.
        NoneHasRisen (shelved F.held F.bad F.faults shelf.old shelf.new)
        (sunk S.gone S.faults out.old out.new) (sunk E.gone E.faults err.old err.new)
        → AlwaysRefuses (map string_bytes words.now) held result) }

    // A command is reported or refused where no count of faults rises, but for want of memory.
    ensures always_answers { NoneHasRisen (shelved F.held F.bad F.faults shelf.old shelf.new)
        (sunk S.gone S.faults out.old out.new) (sunk E.gone E.faults err.old err.new)
        → AlwaysAnswers (map string_bytes words.now) result }

    // Words that are no command: the error output has the usage line. The shelf is not read.
    ensures usage { result ≡ Status.Usage → (command (map string_bytes words.now) ≡ None)
        × Got (sunk E.gone E.faults err.old err.new) usage_lines × (shelf.new ≡ shelf.old) }
    ensures always_usage { command (map string_bytes words.now) ≡ None
        → (HasRisen (sunk E.gone E.faults err.old err.new).faults → ⊥) → IsOrNoMemory result Status.Usage }

    // A file that can't be read: the shelf's count rose, and the error output has the line with its name.
    ensures misses { result ≡ Status.ReadFault → Misses (map string_bytes words.now)
        (shelved F.held F.bad F.faults shelf.old shelf.new) (sunk E.gone E.faults err.old err.new) }

    // Failed writing: the count of a sink rose. The output has a front of the report, and the error output of a line.
    ensures fails { result ≡ Status.WriteFault → Fails (map string_bytes words.now)
        (shelved F.held F.bad F.faults shelf.old shelf.new)
        (sunk S.gone S.faults out.old out.new) (sunk E.gone E.faults err.old err.new) }

    // Want of memory: the error output has its line.
    ensures no_memory { result ≡ Status.NoMemory → Got (sunk E.gone E.faults err.old err.new) no_memory_line }

    // But for a report that is begun, the output is not touched: so want of memory never follows its first byte.
    ensures untouched { IsTrue (leaves_output result) → out.new ≡ out.old }
    ensures held { F.held shelf.new ≡ F.held shelf.old }
{
    let asked = match command(alloc, words) {
        Ok(asked) => asked,
        Err(WordsFault::Usage) => return tell(err, USAGE_LINES, Status::Usage),
        Err(WordsFault::NoMemory) => return tell(err, NO_MEMORY_LINE, Status::NoMemory),
    };
    commands_are_in_bounds();
    one_reading();
    one_result();
    schedules_are_one();
    match examine(alloc, &asked, shelf) {
        Ok(Answer::Report { text, status }) => publish(out, err, &text, status),
        Ok(Answer::Refusal { line }) => tell(err, &line, Status::Refused),
        Ok(Answer::Unread { line }) => tell(err, &line, Status::ReadFault),
        Err(NoMemory) => tell(err, NO_MEMORY_LINE, Status::NoMemory),
    }
}
