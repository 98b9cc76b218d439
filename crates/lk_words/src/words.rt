//! The commands, by their words.
ghost use Rattle.std.specs.List.{list_all};
ghost use Rattle.std.specs.Option.{option_map};
ghost use Rattle.std.specs.Prelude.{◌≡◌, ◌∷◌, [], None, Some, IfOk, IfErr, codes, map, string_bytes, option_and_then};
ghost use Rattle.lk_words.specs.Seen.{matched, seen, seen_task};
ghost use Rattle.lk_words.specs.Words as spec;
ghost use Rattle.lk_words.specs.Words.{externs_option, named_of};
ghost use Rattle.lk_words.specs.declared.task.Task.TheVariants as task;
ghost use Rattle.lk_words.specs.declared.task.WordsFault.TheVariants.{Usage};

use crate::reading::{files_of, matches_of};
use crate::task::{Command, Task, WordsFault};
use clap::ArgMatches;
use lk_base::{LONGEST_NAME, MOST_FILES};
use std::alloc::Global;

/// Whether a word may name a file: it has 1 to 255 bytes.
fn is_name(word: &str) -> bool
    ensures { result ≡ spec.is_name word.now }
{
    !word.is_empty() && word.len() <= LONGEST_NAME
}

/// Whether all words may name files.
fn are_names(words: &[&str]) -> bool
    ensures { result ≡ list_all (λ word. spec.is_name word.now) words.now }
{
    words.iter().all(|word| is_name(word))
}

/// Whether the word, where there is one, may name a file.
fn is_name_or_none(word: Option<&str>) -> bool
    ensures { result ≡ spec.is_name_or_none (option_map (λ name. name.now) word.entry) }
{
    match word {
        Some(word) => is_name(word),
        None => true,
    }
}

/// Whether a command may have so many sources.
fn is_count(count: usize) -> bool
    ensures { result ≡ spec.is_count count }
{
    1 <= count && count <= MOST_FILES
}

/// Whether there are 1 to 64 sources, and every name may name a file.
fn is_in_bounds(command: &Command<'_>) -> bool
    ensures { result ≡ spec.is_in_bounds (seen command.now) }
{
    let files = command.files.as_slice();
    if !is_count(files.len()) {
        return false;
    }
    if !are_names(files) {
        return false;
    }
    is_name_or_none(command.externs) && is_name_or_none(command.task.beside())
}

/// The command with this task and with what `clap` has for `--externs` and the files.
fn with_task<'a>(
    alloc: Global,
    matches: &ArgMatches<'a>,
    task: Task<'a>,
) -> Result<Command<'a>, WordsFault>
    ensures ok { IfOk result (λ command.
        spec.in_bounds (matched (seen_task task.entry) matches.now) ≡ Some (seen command)) }
    ensures usage { IfErr result (λ fault. fault ≡ Usage →
        spec.in_bounds (matched (seen_task task.entry) matches.now) ≡ None) }
{
    let command = Command {
        task,
        externs: matches.get_str("externs"),
        files: files_of(alloc, matches)?,
    };
    if !is_in_bounds(&command) {
        return Err(WordsFault::Usage);
    }
    Ok(command)
}

/// The command of this task, which has the option `--externs` alone, that these words spell behind its name.
fn plain<'a>(alloc: Global, words: &'a [String], task: Task<'a>) -> Result<Command<'a>, WordsFault>
    ensures ok { IfOk result (λ command.
        spec.plain (seen_task task.entry) (map string_bytes words.now) ≡ Some (seen command)) }
    ensures usage { IfErr result (λ fault. fault ≡ Usage →
        spec.plain (seen_task task.entry) (map string_bytes words.now) ≡ None) }
{
    let matches = matches_of(alloc, &["externs"], words)?;
    with_task(alloc, &matches, task)
}

/// The play of the schedule and the sources that these words name behind `play`.
fn play<'a>(alloc: Global, words: &'a [String]) -> Result<Command<'a>, WordsFault>
    ensures ok { IfOk result (λ command.
        spec.with_option (codes "schedule") spec.Play (map string_bytes words.now) ≡ Some (seen command)) }
    ensures usage { IfErr result (λ fault. fault ≡ Usage →
        spec.with_option (codes "schedule") spec.Play (map string_bytes words.now) ≡ None) }
{
    let matches = matches_of(alloc, &["schedule", "externs"], words)?;
    match matches.get_str("schedule") {
        Some(schedule) => with_task(alloc, &matches, Task::Play { schedule }),
        None => Err(WordsFault::Usage),
    }
}

/// The command that these words spell, by its name and what stands behind it: 1 to 64 FILEs, at most one
/// `--externs FILE` or `--externs=FILE`, and the option of its own that a command has, in any order. `--` ends
/// the options; a name has 1 to 255 bytes.
///
/// `Usage` comes exactly where the words spell no command, and `NoMemory` where no
/// memory was found to read them.
pub fn command<'a>(alloc: Global, words: &'a [String]) -> Result<Command<'a>, WordsFault>
    ensures ok { IfOk result (λ command. spec.command (map string_bytes words.now) ≡ Some (seen command)) }
    ensures usage { IfErr result (λ fault. fault ≡ Usage → spec.command (map string_bytes words.now) ≡ None) }
{
    let [first, rest @ ..] = words else {
        return Err(WordsFault::Usage);
    };
    if first.as_str() == "check" {
        return plain(alloc, rest, Task::Check);
    }
    if first.as_str() == "order" {
        return plain(alloc, rest, Task::Order);
    }
    if first.as_str() == "play" {
        return play(alloc, rest);
    }
    Err(WordsFault::Usage)
}
