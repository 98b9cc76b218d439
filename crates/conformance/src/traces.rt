//! Small programs, run step by step by their meaning.
//!
//! The file `traces/traces.txt` lists the traces, one a line: a name, and the arguments of `main`. The
//! source is `traces/NAME.c`, and `traces/NAME.steps` has its schedule, a line for each step, and for
//! each question between two steps.
//!
//! A step is `THREAD WORD ANSWER`: the thread, the word that makes its free choices, and the answer that
//! is expected. The answers are:
//!
//! - `ACTION LINE:COL`, where the thread moves: the action that it performs, and the place of its point in the source. Behind it
//! stands the cell that it touches, as `reads CELL` or `writes CELL`, and `at LOCATION` where the cell
//! is one of a location. A cell
//! is the number of its object, with `.K` for each member and `[K]` for each element that leads to
//! it. Behind the location stands
//! `unforeseen` where the analysis doesn't have it among the origins that flow to the label of the
//! access: where an answer without
//!   that word is expected, the analysis must have it.
//! - `undefined CAUSE`, `waits`, `ended`, `no such thread`, `full`, and `no memory`.
//!
//! A question is `race THREAD THREAD ANSWER`: whether these two threads race in the state that the steps
//! above it led to, which it leaves as it is. They do where both are about to touch one cell of an object
//! that lives, and one of them is to write it. The answers are:
//!
//! - `at LOCATION`, where they race and the cell is one of a location.
//! - `without a location`, where they race and it isn't.
//! - `none`, where they don't race.
//!
//! Objects are numbered in the order of their births: first the strings of the arguments and
//! the objects of static storage.

mod analysed;
mod answer;
mod race;
mod running;
mod schedule;
mod source;
mod words;

use crate::traces::running::run_trace;
use anyhow::{Context, Result};
use std::rt::Files;

/// Runs the trace of a line of the list, prints the steps that differ, and answers whether none does.
pub(crate) fn passes<R: Files + AllocGlobal + Print>(rt: &R, line: &str) -> Result<bool> {
    let mut words = line.split_whitespace();
    let name = words.next().context("a line without a name")?;
    let mut args = Vec::new(rt.alloc());
    for word in words {
        args.push(Vec::from_slice(rt.alloc(), word.as_bytes())?)?;
    }
    run_trace(rt, name, &args).context(format_args!("the trace {name}"))
}
