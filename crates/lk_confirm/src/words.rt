//! What the words of a command line ask for.
ghost use Rattle.std.specs.Option.{option_map};
ghost use Rattle.std.specs.Fmt.{decimal};
ghost use Rattle.std.specs.Prelude.{◌≡◌, ◌<◌, ◌^◌, true, IfOk, IfErr, map, string_bytes};
ghost use Rattle.lk_confirm.specs.Seen.{AsksNothing, IsNumberOf, TellsNumber, TellsSearch, seen_asked, seen_split, seen_wanted};
ghost use Rattle.lk_confirm.specs.Words as spec;
ghost use Rattle.lk_confirm.specs.Words.{AsksFor};
ghost use Rattle.lk_words.specs.declared.task.WordsFault.TheVariants.{Usage};

use lk_base::NoMemory;
use lk_witness::Search;
use lk_words::{Command, WordsFault, command};
use std::alloc::Global;
use std::str;

/// How many steps the searches have together where no other number is given.
const USUAL_STEPS: u64 = 2_000_000;

/// What is wanted next.
#[derive(Clone, Copy)]
pub(crate) enum Wanted {
    /// Any word.
    Any,
    /// The seed.
    Seed,
    /// The number of steps.
    Steps,
    /// The file of `--externs`.
    File,
    /// Behind `--`, a FILE.
    Source,
}

/// The words, without the options that have numbers.
#[derive(Drop)]
pub(crate) struct Split<'a> {
    /// The text of the seed, where it is given.
    pub(crate) seed: Option<&'a [u8]>,
    /// The text of the number of steps, where it is given.
    pub(crate) steps: Option<&'a [u8]>,
    /// The other words.
    pub(crate) others: Vec<String>,
    /// What is wanted next.
    pub(crate) wanted: Wanted,
}

/// What words ask for.
#[derive(Drop)]
pub(crate) struct Asked<'a> {
    /// How races are looked for.
    pub(crate) search: Search,
    /// The sources.
    pub(crate) check: Command<'a>,
}

impl<'a> Split<'a> {
    /// The same, where this is wanted next.
    fn wanting(self, wanted: Wanted) -> Split<'a>
        ensures { seen_split result ≡ spec.wanting (seen_split self.entry) (seen_wanted wanted) }
    {
        let Split {
            seed,
            steps,
            others,
            wanted: _,
        } = self;
        Split {
            seed,
            steps,
            others,
            wanted,
        }
    }

    /// The same with the text of the seed, or nothing where there is one.
    fn with_seed(self, text: &'a [u8]) -> Option<Split<'a>>
        ensures { option_map seen_split result ≡ spec.with_seed (seen_split self.entry) text.now }
    {
        let Split {
            seed,
            steps,
            others,
            wanted: _,
        } = self;
        match seed {
            Some(_) => None,
            None => Some(Split {
                seed: Some(text),
                steps,
                others,
                wanted: Wanted::Any,
            }),
        }
    }

    /// The same with the text of the number of steps, or nothing where there is one.
    fn with_steps(self, text: &'a [u8]) -> Option<Split<'a>>
        ensures { option_map seen_split result ≡ spec.with_steps (seen_split self.entry) text.now }
    {
        let Split {
            seed,
            steps,
            others,
            wanted: _,
        } = self;
        match steps {
            Some(_) => None,
            None => Some(Split {
                seed,
                steps: Some(text),
                others,
                wanted: Wanted::Any,
            }),
        }
    }

    /// The same with a word that is left.
    fn with_other(self, alloc: Global, word: &str, wanted: Wanted) -> Result<Split<'a>, NoMemory>
        ensures { IfOk result (λ split.
            seen_split split ≡ spec.with_other (seen_split self.entry) word.now (seen_wanted wanted)) }
    {
        let Split {
            seed,
            steps,
            mut others,
            wanted: _,
        } = self;
        others.push(String::from_str(alloc, word)?)?;
        Ok(Split {
            seed,
            steps,
            others,
            wanted,
        })
    }
}

/// What stands behind this front of a word, where it has it.
fn behind<'a>(front: &[u8], word: &'a [u8]) -> Option<&'a [u8]>
    ensures { option_map (λ text. text.now) result ≡ spec.behind front.now word.now }
{
    if word.len() < front.len() {
        return None;
    }
    let (own, rest) = word.split_at(front.len());
    if own == front { Some(rest) } else { None }
}

/// The words with one more that is neither an option with a number nor its number.
fn left_word<'a>(alloc: Global, split: Split<'a>, word: &str) -> Result<Split<'a>, NoMemory>
    ensures { IfOk result (λ more. seen_split more ≡ spec.left_word (seen_split split.entry) word.now) }
{
    if word == "--externs" {
        split.with_other(alloc, word, Wanted::File)
    } else if word == "--" {
        split.with_other(alloc, word, Wanted::Source)
    } else {
        split.with_other(alloc, word, Wanted::Any)
    }
}

/// The words with one more, where any may stand; or nothing where it may not.
fn any_word<'a>(
    alloc: Global,
    split: Split<'a>,
    word: &'a str,
) -> Result<Option<Split<'a>>, NoMemory>
    ensures { IfOk result (λ more. option_map seen_split more ≡ spec.any_word (seen_split split.entry) word.now) }
{
    if word == "--seed" {
        return Ok(Some(split.wanting(Wanted::Seed)));
    }
    if word == "--steps" {
        return Ok(Some(split.wanting(Wanted::Steps)));
    }
    if let Some(text) = behind(b"--seed=", word.as_bytes()) {
        return Ok(split.with_seed(text));
    }
    if let Some(text) = behind(b"--steps=", word.as_bytes()) {
        return Ok(split.with_steps(text));
    }
    Ok(Some(left_word(alloc, split, word)?))
}

/// The words with one more, or nothing where it may not stand there.
fn next_word<'a>(
    alloc: Global,
    split: Split<'a>,
    word: &'a str,
) -> Result<Option<Split<'a>>, NoMemory>
    ensures { IfOk result (λ more. option_map seen_split more ≡ spec.next_word (seen_split split.entry) word.now) }
{
    match split.wanted {
        Wanted::Any => any_word(alloc, split, word),
        Wanted::Seed => Ok(split.with_seed(word.as_bytes())),
        Wanted::Steps => Ok(split.with_steps(word.as_bytes())),
        Wanted::File => Ok(Some(split.with_other(alloc, word, Wanted::Any)?)),
        Wanted::Source => Ok(Some(split.with_other(alloc, word, Wanted::Source)?)),
    }
}

/// No words so far: those of a check without files.
fn nothing_split<'a>(alloc: Global) -> Result<Split<'a>, NoMemory>
    ensures { IfOk result (λ split. seen_split split ≡ spec.nothing_split) }
{
    let mut others = Vec::new(alloc);
    others.push(String::from_str(alloc, "check")?)?;
    Ok(Split {
        seed: None,
        steps: None,
        others,
        wanted: Wanted::Any,
    })
}

/// The words behind the first one, taken apart, or nothing where one of them may not stand where it does.
pub(crate) fn split_of<'a>(
    alloc: Global,
    words: &'a [String],
) -> Result<Option<Split<'a>>, NoMemory>
    ensures { IfOk result (λ split.
        option_map seen_split split ≡ spec.walk spec.nothing_split (map string_bytes words.now)) }
{
    let mut split = nothing_split(alloc)?;
    for word in words {
        match next_word(alloc, split, word.as_str())? {
            Some(next) => split = next,
            None => return Ok(None),
        }
    }
    Ok(Some(split))
}

/// Whether no number is wanted at the end.
fn is_done(wanted: Wanted) -> bool
    ensures { result ≡ spec.is_done (seen_wanted wanted) }
{
    match wanted {
        Wanted::Any | Wanted::File | Wanted::Source => true,
        Wanted::Seed | Wanted::Steps => false,
    }
}

/// Whether bytes are a number in decimal.
fn is_written(alloc: Global, number: u64, bytes: &[u8]) -> Result<bool, NoMemory>
    ensures yes { IfOk result (λ is. is ≡ true → bytes.now ≡ decimal number) }
    ensures no { IfOk result (λ is. bytes.now ≡ decimal number → is ≡ true) }
{
    let written = format!(in alloc; "{number}")?;
    Ok(are_equal(bytes, written.as_bytes()))
}

/// Whether bytes are equal.
fn are_equal(bytes: &[u8], others: &[u8]) -> bool
    ensures yes { result ≡ true → bytes.now ≡ others.now }
    ensures no { bytes.now ≡ others.now → result ≡ true }
{
    bytes == others
}

/// The number that a text writes in decimal, without a leading zero or a sign, or nothing where it is none.
fn number_in(alloc: Global, text: &str) -> Result<Option<u64>, NoMemory>
    ensures { IfOk result (TellsNumber text.now) }
{
    match text.parse::<u64>() {
        Ok(found) => {
            if is_written(alloc, found, text.as_bytes())? {
                Ok(Some(found))
            } else {
                Ok(None)
            }
        }
        Err(_) => Ok(None),
    }
}

/// The number that bytes write in decimal, without a leading zero or a sign, or nothing where they are none.
fn number(alloc: Global, bytes: &[u8]) -> Result<Option<u64>, NoMemory>
    ensures { IfOk result (TellsNumber bytes.now) }
{
    match str::from_utf8(bytes) {
        Ok(text) => number_in(alloc, text),
        Err(_) => Ok(None),
    }
}

/// The number of an option, which is the usual one where none is given; or nothing where it isn't one.
fn number_or(alloc: Global, text: Option<&[u8]>, usual: u64) -> Result<Option<u64>, NoMemory>
    requires { usual < 2 ^ 64 }
    ensures { IfOk result (IsNumberOf usual (option_map (λ text. text.now) text.entry)) }
{
    match text {
        Some(bytes) => number(alloc, bytes),
        None => Ok(Some(usual)),
    }
}

/// How races are looked for, by the texts of the numbers; or nothing where one is none.
fn search_of(alloc: Global, split: &Split<'_>) -> Result<Option<Search>, NoMemory>
    ensures { IfOk result (TellsSearch (seen_split split.now)) }
{
    let Some(seed) = number_or(alloc, split.seed, 0)? else {
        return Ok(None);
    };
    let Some(steps) = number_or(alloc, split.steps, USUAL_STEPS)? else {
        return Ok(None);
    };
    Ok(Some(Search { seed, steps }))
}

/// What the words ask for that were taken apart.
pub(crate) fn asked_by<'a>(alloc: Global, split: &'a Split<'_>) -> Result<Asked<'a>, WordsFault>
    ensures ok { IfOk result (λ asked. AsksFor (seen_split split.now) (seen_asked asked)) }
    ensures usage { IfErr result (λ fault. fault ≡ Usage → AsksNothing (seen_split split.now)) }
{
    if !is_done(split.wanted) {
        return Err(WordsFault::Usage);
    }
    match search_of(alloc, split) {
        Ok(Some(search)) => Ok(Asked {
            search,
            check: command(alloc, split.others.as_slice())?,
        }),
        Ok(None) => Err(WordsFault::Usage),
        Err(NoMemory) => Err(WordsFault::NoMemory),
    }
}
