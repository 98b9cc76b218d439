//! The lines of a schedule.

use anyhow::{Context, Result};

/// What a line of a schedule asks for.
#[derive(Clone, Copy)]
pub(crate) enum Asked {
    /// A step.
    Step {
        /// The thread that performs it.
        thread: u32,
        /// The word that makes its free choices.
        word: u64,
    },
    /// Whether these two threads race.
    Race(u32, u32),
}

/// A line of a schedule, and the answer that is expected.
#[derive(Clone, Copy)]
pub(crate) struct Planned<'a> {
    /// What it asks for.
    pub(crate) asked: Asked,
    /// The answer.
    pub(crate) answer: &'a str,
}

/// The first two words of a text, and what stands behind them.
fn two_words(text: &str) -> Result<(&str, &str, &str)> {
    let (first, behind) = text.split_once(' ').context("a line of one word")?;
    let (second, answer) = behind.split_once(' ').context("a line without an answer")?;
    Ok((first, second, answer))
}

/// Reads a line of a schedule.
pub(crate) fn parse_line(line: &str) -> Result<Planned<'_>> {
    if let Some(threads) = line.strip_prefix("race ") {
        let (first, second, answer) = two_words(threads)?;
        let asked = Asked::Race(first.parse()?, second.parse()?);
        return Ok(Planned { asked, answer });
    }
    let (thread, word, answer) = two_words(line)?;
    let asked = Asked::Step {
        thread: thread.parse()?,
        word: word.parse()?,
    };
    Ok(Planned { asked, answer })
}
