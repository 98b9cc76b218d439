//! Schedules: which threads are to move, turn by turn.
ghost use Rattle.std.specs.Prelude.{◌≡◌, ◌≤◌, true, IfOk, IfErr, length};
ghost use Rattle.std.specs.Fmt.{decimal};
ghost use Rattle.lk_play.specs.Calls.{TellsNumber, TellsStar, TellsTurn, PutsLine, len_before};
ghost use Rattle.lk_play.specs.Schedules.{IsSchedule, TellsFault};

use lk_base::NoMemory;
use std::alloc::{AllocError, AllocFailed, Global};
use std::str;

/// How many numbers a thread may have.
const THREADS: u64 = 1 << 32;

/// A turn of a schedule.
#[derive(Clone, Copy, PartialEq, Eq)]
pub struct Turn {
    /// The thread that is to move.
    pub thread: u32,
    /// The word that makes the free choices of its steps.
    pub word: u64,
    /// Whether it moves until it is about to touch a cell, and else once.
    pub until: bool,
}

/// Why a file gives no schedule.
#[derive(Debug, Drop)]
pub enum ScheduleFault {
    /// The line of this number is the first that is neither empty nor a turn.
    Bad(u32),
    /// No memory was found.
    NoMemory,
}

impl From<NoMemory> for ScheduleFault {
    ghost use Rattle.std.specs.Prelude.{◌≡◌};
    ghost use Rattle.lk_play.specs.declared.schedules.ScheduleFault.TheVariants.{NoMemory};

    ghost from_gives = { λ _ fault. fault ≡ NoMemory };

    fn from(_error: NoMemory) -> ScheduleFault {
        ScheduleFault::NoMemory
    }
}

impl From<AllocError> for ScheduleFault {
    ghost use Rattle.std.specs.Prelude.{◌≡◌};
    ghost use Rattle.lk_play.specs.declared.schedules.ScheduleFault.TheVariants.{NoMemory};

    ghost from_gives = { λ _ fault. fault ≡ NoMemory };

    fn from(_error: AllocError) -> ScheduleFault {
        ScheduleFault::NoMemory
    }
}

impl<T: Drop> From<AllocFailed<T>> for ScheduleFault {
    ghost use Rattle.std.specs.Prelude.{◌≡◌};
    ghost use Rattle.lk_play.specs.declared.schedules.ScheduleFault.TheVariants.{NoMemory};

    ghost from_gives = { λ _ fault. fault ≡ NoMemory };

    fn from(_error: AllocFailed<T>) -> ScheduleFault {
        ScheduleFault::NoMemory
    }
}

/// Whether bytes are equal.
fn are_equal(bytes: &[u8], others: &[u8]) -> bool
    ensures yes { result ≡ true → bytes.now ≡ others.now }
    ensures no { bytes.now ≡ others.now → result ≡ true }
{
    bytes == others
}

/// Whether bytes are a number in decimal.
fn is_written(alloc: Global, number: u64, bytes: &[u8]) -> Result<bool, NoMemory>
    ensures yes { IfOk result (λ is. is ≡ true → bytes.now ≡ decimal number) }
    ensures no { IfOk result (λ is. bytes.now ≡ decimal number → is ≡ true) }
{
    let written = format!(in alloc; "{number}")?;
    Ok(are_equal(bytes, written.as_bytes()))
}

/// The number that a text writes in decimal, without a leading zero or a sign, or nothing where it is none.
fn number_in(alloc: Global, text: &str) -> Result<Option<u64>, NoMemory>
    ensures { IfOk result (TellsNumber text.now) }
{
    match text.parse::<u64>() {
        Ok(found) => {
            if is_written(alloc, found, text.as_bytes())? {
                Ok(Some(found))
            } else {
                Ok(None)
            }
        }
        Err(_) => Ok(None),
    }
}

/// The number that bytes write in decimal, without a leading zero or a sign, or nothing where they are none.
fn number(alloc: Global, bytes: &[u8]) -> Result<Option<u64>, NoMemory>
    ensures { IfOk result (TellsNumber bytes.now) }
{
    match str::from_utf8(bytes) {
        Ok(text) => number_in(alloc, text),
        Err(_) => Ok(None),
    }
}

/// How many bytes stand before the first one of this value.
fn len_before(bytes: &[u8], end: u8) -> usize
    ensures value { result ≡ len_before end bytes.now }
    ensures within { result ≤ length bytes.now }
{
    bytes.iter().take_while(|byte| **byte != end).count()
}

/// Whether a turn that has this behind its word is one for several steps, or nothing where no turn has it.
fn star_in(star: &[u8]) -> Option<bool>
    ensures { TellsStar star.now result }
{
    if star.is_empty() {
        Some(false)
    } else if are_equal(star, b" *") {
        Some(true)
    } else {
        None
    }
}

/// The turn that a line is, or nothing where it is none.
fn turn_in(alloc: Global, line: &[u8]) -> Result<Option<Turn>, NoMemory>
    ensures { IfOk result (TellsTurn line.now) }
{
    let (first, others) = line.split_at(len_before(line, b' '));
    let [_blank, behind @ ..] = others else {
        return Ok(None);
    };
    let (second, star) = behind.split_at(len_before(behind, b' '));
    let Some(until) = star_in(star) else {
        return Ok(None);
    };
    let Some(thread) = number(alloc, first)? else {
        return Ok(None);
    };
    let Some(word) = number(alloc, second)? else {
        return Ok(None);
    };
    if thread >= THREADS {
        return Ok(None);
    }
    Ok(Some(Turn {
        thread: thread as u32,
        word,
        until,
    }))
}

/// Whether a line is empty or a turn; the turn is put behind the turns.
fn put_line(alloc: Global, line: &[u8], turns: &mut Vec<Turn>) -> Result<bool, NoMemory>
    ensures { IfOk result (PutsLine line.now turns.old.items turns.new.items) }
{
    if line.is_empty() {
        return Ok(true);
    }
    let Some(turn) = turn_in(alloc, line)? else {
        return Ok(false);
    };
    turns.push(turn)?;
    Ok(true)
}

/// The turns of a schedule file. Each line is empty or a turn: `T W`, or `T W *`, with one blank between its
/// parts, where T is the number of a thread and W a word, in decimal without leading zeros. The last newline
/// may be absent. The fault is the number of the first line that is neither, or that no memory was found.
pub fn schedule(alloc: Global, bytes: &[u8]) -> Result<Vec<Turn>, ScheduleFault>
    requires { length bytes.now ≤ 65536 }
    ensures turns { IfOk result (λ turns. IsSchedule bytes.now turns.items) }
    ensures fault { IfErr result (TellsFault bytes.now) }
{
    let mut turns = Vec::new(alloc);
    let mut number = 1;
    let mut rest = bytes;
    loop {
        let (line, others) = rest.split_at(len_before(rest, b'\n'));
        if !put_line(alloc, line, &mut turns)? {
            return Err(ScheduleFault::Bad(number));
        }
        let [_newline, behind @ ..] = others else {
            return Ok(turns);
        };
        rest = behind;
        number += 1;
    }
}
