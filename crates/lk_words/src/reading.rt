//! What `clap` reads of the words behind the name of a command.
ghost use Rattle.std.specs.Prelude.{◌≡◌, false, None, map, IfOk, IfErr, string_bytes};
ghost use Rattle.clap.specs.Words.{app_of, rule_of};
ghost use Rattle.lk_words.specs.Reading.{AreOptions, app_with, bare_app, option_rule, with_options};
ghost use Rattle.lk_words.specs.Seen.{IsMatchOf, files_in};
ghost use Rattle.lk_words.specs.Words.{named_of};
ghost use Rattle.lk_words.specs.declared.task.WordsFault.TheVariants.{Usage};

use crate::task::{WordsFault, fault_of};
use clap::{Arg, ArgAction, ArgMatches, Command};
use std::alloc::{AllocError, Global};

/// An option of this name, with a file.
fn option<'a>(alloc: Global, name: &'a str) -> Arg<'a>
    ensures rule { rule_of result ≡ option_rule name.now }
    ensures local { result.global ≡ false }
{
    Arg::new(alloc, name).long(name).action(ArgAction::Set)
}

/// The command of `clap` that reads options of these names.
fn with_each<'a>(alloc: Global, options: &[&'a str]) -> Result<Command<'a>, AllocError>
    ensures { IfOk result (λ c. app_of c ≡ with_options bare_app (map (λ name. name.now) options.now)) }
{
    let mut command = Command::new(alloc, "lsrace")
        .no_binary_name(true)
        .disable_help_flag(true);
    for name in options {
        command = command.arg(option(alloc, name))?;
    }
    Ok(command)
}

/// The same with files.
fn reader<'a>(alloc: Global, options: &[&'a str]) -> Result<Command<'a>, AllocError>
    ensures { IfOk result (λ c. app_of c ≡ app_with (map (λ name. name.now) options.now)) }
{
    let file = Arg::new(alloc, "file").action(ArgAction::Append);
    let command = with_each(alloc, options)?;
    command.arg(file)
}

/// What `clap` has for the words, where these are the options.
pub(crate) fn matches_of<'a>(
    alloc: Global,
    options: &[&'a str],
    words: &'a [String],
) -> Result<ArgMatches<'a>, WordsFault>
    requires { AreOptions (map (λ name. name.now) options.now) }
    ensures ok { IfOk result (IsMatchOf (map (λ name. name.now) options.now) (map string_bytes words.now)) }
    ensures usage { IfErr result (λ fault. fault ≡ Usage
        → named_of (map (λ name. name.now) options.now) (map string_bytes words.now) ≡ None) }
{
    let command = reader(alloc, options)?;
    match command.try_get_matches_from(words) {
        Ok(matches) => Ok(matches),
        Err(error) => Err(fault_of(&error)),
    }
}

/// The words, as a list of its own.
fn copied<'a>(alloc: Global, words: &[&'a str]) -> Result<Vec<&'a str>, AllocError>
    ensures { IfOk result (λ copy. copy.items ≡ words.now) }
{
    let mut copy = Vec::new(alloc);
    copy.extend_from_slice(words)?;
    Ok(copy)
}

/// The files among the matches.
pub(crate) fn files_of<'a>(
    alloc: Global,
    matches: &ArgMatches<'a>,
) -> Result<Vec<&'a str>, AllocError>
    ensures { IfOk result (λ files. map (λ name. name.now) files.items ≡ files_in matches.now) }
{
    match matches.get_strs("file") {
        Some(files) => copied(alloc, files),
        None => Ok(Vec::new(alloc)),
    }
}
