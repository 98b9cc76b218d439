//! The top call.
ghost use Rattle.std.specs.Prelude.{◌≡◌, map, IsTrue, string_bytes};
ghost use Rattle.std.specs.Option.{ForSome};
ghost use Rattle.lk_confirm.specs.Words.{IsNoCommand};
ghost use Rattle.lk_sources.specs.Shelves.{shelved, HasRisen};
ghost use Rattle.lk_confirm.specs.Texts.{usage_line, no_memory_line};
ghost use Rattle.lk_confirm.specs.Results.{is_report};
ghost use Rattle.lk_confirm.specs.Run.{sunk, Got, NoneHasRisen, Reports, Refuses, Misses, Fails, AlwaysAnswers, AlwaysReports, AlwaysRefuses, IsOrNoMemory, Told, Published, leaves_output};

use crate::answer::{Answer, answer_words};
use lk_base::Status;
use lk_io::{Failed, Shelf, Sink, write_whole};
use lk_sources::{one_reading, one_result};
use lk_words::WordsFault;
use std::alloc::Global;

const USAGE_LINE: &[u8] =
    b"usage: lsrace-witness [--seed N] [--steps N] [--externs FILE] FILE...\n";

const UNWRITTEN_LINE: &[u8] = b"lsrace-witness: cannot write\n";

const NO_MEMORY_LINE: &[u8] = b"lsrace-witness: no memory\n";

/// Writes a line to the error output, and answers the status, or that writing failed.
fn tell<E: Sink>(err: &mut E, line: &[u8], status: Status) -> Status
    ensures { Told status line.now (sunk E.gone E.faults err.old err.new) result }
{
    match write_whole(err, line) {
        Ok(()) => status,
        Err(Failed) => Status::WriteFault,
    }
}

/// Writes the report to the output, and answers its status. Where that fails, the error output is told.
fn publish<S: Sink, E: Sink>(out: &mut S, err: &mut E, text: &[u8], status: Status) -> Status
    ensures published { Published status text.now
        (sunk S.gone S.faults out.old out.new) (sunk E.gone E.faults err.old err.new) result }
    ensures quiet { IsTrue (is_report result) → err.new ≡ err.old }
{
    match write_whole(out, text) {
        Ok(()) => status,
        Err(Failed) => tell(err, UNWRITTEN_LINE, Status::WriteFault),
    }
}

/// Runs the command that the words spell: reads its files from the shelf, looks for schedules that show races at the
/// suspect locations, and writes what was found to `out` or a line to `err`.
///
/// The status says which, and its clauses when each comes. What is said of the words' outcome is said
/// where the shelf tells its files.
pub fn run<F: Shelf, S: Sink, E: Sink>(
    alloc: Global,
    words: &[String],
    shelf: &mut F,
    out: &mut S,
    err: &mut E,
) -> Status
    // What was found: the output has it whole. It tells of each location that the verdicts call suspect, in the order of
    // the report; each schedule that stands in it was played, and the text of the play has a race line of the location
    // (`IsConfirmed`). It comes only if no count of faults rises. Sources of the subset are reported, but for want of memory.
    ensures reports { IsTrue (is_report result) → ForSome (F.held shelf.old) (λ held.
        Reports (map string_bytes words.now) held (sunk S.gone S.faults out.old out.new) result) }
    ensures reports_quietly { IsTrue (is_report result) → (F.faults shelf.new ≡ F.faults shelf.old)
        × (S.faults out.new ≡ S.faults out.old) × (err.new ≡ err.old) }
    ensures always_reports { ForSome (F.held shelf.old) (λ held.
        NoneHasRisen (shelved F.held F.bad F.faults shelf.old shelf.new)
        (sunk S.gone S.faults out.old out.new) (sunk E.gone E.faults err.old err.new)
        → AlwaysReports (map string_bytes words.now) held result) }

    // A refusal: the error output has its line. It comes only if the shelf's count doesn't rise.
    ensures refuses { result ≡ Status.Refused → ForSome (F.held shelf.old) (λ held.
        Refuses (map string_bytes words.now) held (sunk E.gone E.faults err.old err.new)) }
    ensures refuses_quietly { result ≡ Status.Refused → F.faults shelf.new ≡ F.faults shelf.old }
    ensures always_refuses { ForSome (F.held shelf.old) (λ held.
        NoneHasRisen (shelved F.held F.bad F.faults shelf.old shelf.new)
        (sunk S.gone S.faults out.old out.new) (sunk E.gone E.faults err.old err.new)
        → AlwaysRefuses (map string_bytes words.now) held result) }

    // A command is reported or refused where no count of faults rises, but for want of memory.
    ensures always_answers { NoneHasRisen (shelved F.held F.bad F.faults shelf.old shelf.new)
        (sunk S.gone S.faults out.old out.new) (sunk E.gone E.faults err.old err.new)
        → AlwaysAnswers (map string_bytes words.now) result }

    // Words that are no command: the error output has the usage line. The shelf is not read.
    ensures usage { result ≡ Status.Usage → IsNoCommand (map string_bytes words.now)
        × Got (sunk E.gone E.faults err.old err.new) usage_line × (shelf.new ≡ shelf.old) }
    ensures always_usage { IsNoCommand (map string_bytes words.now)
        → (HasRisen (sunk E.gone E.faults err.old err.new).faults → ⊥) → IsOrNoMemory result Status.Usage }

    // A file that can't be read: the shelf's count rose, and the error output has the line with its name.
    ensures misses { result ≡ Status.ReadFault → Misses (map string_bytes words.now)
        (shelved F.held F.bad F.faults shelf.old shelf.new) (sunk E.gone E.faults err.old err.new) }

    // Failed writing: the count of a sink rose. The output has a front of the report, and the error output of a line.
    ensures fails { result ≡ Status.WriteFault → Fails (map string_bytes words.now)
        (shelved F.held F.bad F.faults shelf.old shelf.new)
        (sunk S.gone S.faults out.old out.new) (sunk E.gone E.faults err.old err.new) }

    // Want of memory: the error output has its line.
    ensures no_memory { result ≡ Status.NoMemory → Got (sunk E.gone E.faults err.old err.new) no_memory_line }

    // But for a report that is begun, the output is not touched: so want of memory never follows its first byte.
    ensures untouched { IsTrue (leaves_output result) → out.new ≡ out.old }
    ensures held { F.held shelf.new ≡ F.held shelf.old }
{
    one_reading();
    one_result();
    match answer_words(alloc, words, shelf) {
        Ok(Answer::Report { text, status }) => publish(out, err, &text, status),
        Ok(Answer::Refusal { line }) => tell(err, &line, Status::Refused),
        Ok(Answer::Unread { line }) => tell(err, &line, Status::ReadFault),
        Err(WordsFault::Usage) => tell(err, USAGE_LINE, Status::Usage),
        Err(WordsFault::NoMemory) => tell(err, NO_MEMORY_LINE, Status::NoMemory),
    }
}
