//! The tokens of several sources.
ghost use Rattle.std.specs.Prelude.{◌≡◌, ◌≢◌, ◌<◌, ◌≤◌, true, None, Some, length, All, IfOk, IfErr, OnOk};
ghost use Rattle.std.specs.Option.{option_or};
ghost use Rattle.lk_base.specs.declared.code.Code.TheVariants.{UnsupportedWord};
ghost use Rattle.lk_base.specs.declared.fault.Fault.TheVariants.{Refused};
ghost use Rattle.lk_base.specs.Files.{has_name};
ghost use Rattle.lk_lex.specs.Answer.{Extends};
ghost use Rattle.lk_lex.specs.Lengths.{IsStop};
ghost use Rattle.lk_lex.specs.Tokens.{start_of};
ghost use Rattle.lk_sources.specs.Calls.{AreAllInside, IsFaultIn, IsSplit, IsSplitFault};
ghost use Rattle.lk_sources.specs.Numbers.{number_of};
ghost use Rattle.lk_sources.specs.Readable.{AreNamed, AreShort};
ghost use Rattle.lk_sources.specs.Splitting.{AreFiled, AreSplit, first_word};

use crate::numbers::put_name;
use crate::reading::Source;
use lk_base::{Code, Fault, Files, Refusal, Seq};
use lk_lex::{Token, tokens};
use std::alloc::Global;

/// What the bytes of a source split into.
#[derive(Drop)]
enum Split {
    /// Tokens, all of which are supported.
    Tokens(Seq<Token>),
    /// Tokens, of which this refuses the first word that is not supported.
    Word(Refusal),
}

/// What a refusal of tokens makes of a source: where it is for a word, the source splits.
fn split_at(refusal: Refusal) -> Result<Split, Fault>
    ensures ok { IfOk result (λ split. (split ≡ Split.Word refusal) × (refusal.code ≡ UnsupportedWord)) }
    ensures err { IfErr result (λ fault. (fault ≡ Refused refusal) × (refusal.code ≢ UnsupportedWord)) }
{
    if refusal.code == Code::UnsupportedWord {
        Ok(Split::Word(refusal))
    } else {
        Err(Fault::Refused(refusal))
    }
}

/// The split of a source, which has this number.
fn split_as(alloc: Global, source: &Source, own: u32, files: &mut Files) -> Result<Split, Fault>
    requires few { length source.now.bytes ≤ 1048576 }
    requires names { length files.old < 2147483648 }
    requires own { own < length files.old }
    ensures ok { IfOk result (IsSplit files.old own source.now files.new) }
    ensures err { IfErr result (IsStop files.old (start_of own) source.now.bytes files.new) }
    ensures stands { IfErr result (IsFaultIn (length files.new)) }
    ensures names { Extends files.old files.new }
{
    match tokens(alloc, source.bytes.list(), own, files) {
        Ok(list) => Ok(Split::Tokens(Seq::new(list))),
        Err(Fault::Refused(refusal)) => {
            let split = split_at(refusal)?;
            Ok(split)
        }
        Err(Fault::NoMemory) => Err(Fault::NoMemory),
    }
}

/// The first of two refusals, where there is a first.
fn first_of(word: Option<Refusal>, refusal: Refusal) -> Option<Refusal>
    ensures { result ≡ option_or word (Some refusal) }
{
    match word {
        Some(word) => Some(word),
        None => Some(refusal),
    }
}

/// The split of a source, whose name stands among the files. The names of its line marks are put into them.
fn split_source(alloc: Global, source: &Source, files: &mut Files) -> Result<Split, Fault>
    requires few { length source.now.bytes ≤ 1048576 }
    requires named { has_name files.old source.now.name ≡ true }
    ensures ok { IfOk result (IsSplit files.old (number_of files.old source.now.name) source.now files.new) }
    ensures err { IfErr result (IsStop files.old (start_of (number_of files.old source.now.name))
        source.now.bytes files.new) }
    ensures stands { IfErr result (IsFaultIn (length files.new)) }
    ensures names { OnOk result (Extends files.old files.new) }
{
    let own = put_name(alloc, files, source.name.bytes())?;
    let split = split_as(alloc, source, own, files)?;
    Ok(split)
}

/// The tokens of each source. The names of the sources stand among the files; those of their line marks are
/// put behind them, source by source.
///
/// A refusal is for the first source of which the split stops; where there is none, for the first in
/// which a word is not supported.
pub(crate) fn split_all(
    alloc: Global,
    sources: &[Source],
    files: &mut Files,
) -> Result<Vec<Seq<Token>>, Fault>
    requires few { AreShort 1048576 sources.now }
    requires named { AreNamed files.old sources.now }
    ensures ok { IfOk result (λ lists. AreSplit files.old sources.now lists.items files.new) }
    ensures supported { IfOk result (λ lists. first_word sources.now lists.items ≡ None) }
    ensures inside { IfOk result (λ lists. AreAllInside sources.now lists.items) }
    ensures filed { IfOk result (λ lists. All (AreFiled (length files.new)) lists.items) }
    ensures err { IfErr result (IsSplitFault files.old sources.now files.new) }
    ensures stands { IfErr result (IsFaultIn (length files.new)) }
{
    let mut lists = Vec::new(alloc);
    let mut word = None;
    for source in sources {
        match split_source(alloc, source, files)? {
            Split::Tokens(list) => {
                lists.push(list)?;
                continue;
            }
            Split::Word(refusal) => {
                word = first_of(word, refusal);
                continue;
            }
        }
    }
    match word {
        Some(refusal) => Err(Fault::Refused(refusal)),
        None => Ok(lists),
    }
}
