//! The steps of a trace.

use crate::traces::analysed::{Analysed, analyse};
use crate::traces::answer::{race_text, step_text};
use crate::traces::race::race_of;
use crate::traces::schedule::{Asked, parse_line};
use crate::traces::source::points_of;
use anyhow::{Context, Result};
use lk_base::{NoMemory, Seq};
use lk_birth::start;
use lk_cases::is_case;
use lk_cells::State;
use lk_facts::Points;
use lk_meaning::{Stepped, touch};
use lk_safe::step;
use std::alloc::Global;
use std::rt::Files;
use std::{fs, mem};

/// How many objects and threads a state of a trace has at most.
const MOST: usize = 1000;

/// A state without objects and threads.
fn nothing(alloc: Global) -> State {
    State {
        objects: Seq::new(Vec::new(alloc)),
        threads: Seq::new(Vec::new(alloc)),
        ended: false,
    }
}

/// The state that a step leaves.
fn left(stepped: Stepped) -> State {
    match stepped {
        Stepped::Moved(state, _) => state,
        Stepped::Waits(state) => state,
        Stepped::Undefined(state, _) => state,
        Stepped::Ended(state) => state,
        Stepped::NoSuchThread(state) => state,
        Stepped::Full(state) => state,
        Stepped::NoMemory(state) => state,
    }
}

/// Whether a thread is about to write a cell.
fn will_write(points: &Points, state: &State, thread: u32) -> Result<bool, NoMemory> {
    let touched = touch(points, state, thread)?;
    Ok(touched.is_some_and(|touched| touched.writes))
}

/// Performs a step, and answers what comes of it.
fn advance(
    alloc: Global,
    program: &Analysed,
    state: &mut State,
    thread: u32,
    word: u64,
) -> Result<String, NoMemory> {
    if state.objects.len() > MOST || state.threads.len() > MOST {
        return Err(NoMemory);
    }
    let writes = will_write(&program.points, state, thread)?;
    let now = mem::replace(state, nothing(alloc));
    let stepped = step(alloc, &program.points, now, thread, word);
    let answer = step_text(alloc, program, &stepped, writes)?;
    *state = left(stepped);
    Ok(answer)
}

/// The answer to a line of a schedule, which performs its step where it asks for one.
fn answer_to(
    alloc: Global,
    program: &Analysed,
    state: &mut State,
    asked: Asked,
) -> Result<String, NoMemory> {
    match asked {
        Asked::Step { thread, word } => advance(alloc, program, state, thread, word),
        Asked::Race(first, second) => {
            let race = race_of(&program.points, state, first, second)?;
            race_text(alloc, race)
        }
    }
}

/// Answers a line of a schedule, and prints the answer where that isn't the one expected.
fn comes_so<R: AllocGlobal + Print>(
    rt: &R,
    name: &str,
    program: &Analysed,
    state: &mut State,
    line: &str,
) -> Result<bool> {
    let planned = parse_line(line).context(format_args!("the line {line:?}"))?;
    let answer = answer_to(rt.alloc(), program, state, planned.asked)?;
    let same = answer.as_str() == planned.answer;
    if !same {
        println!(rt; "{name}: {line}: {answer}")?;
    }
    Ok(same)
}

/// Answers the lines of a schedule, and tells whether each answer is the one expected.
fn come_so<R: AllocGlobal + Print>(
    rt: &R,
    name: &str,
    program: &Analysed,
    state: &mut State,
    steps: &str,
) -> Result<bool> {
    let mut all = true;
    for line in steps.lines().filter(|line| is_case(line)) {
        let same = comes_so(rt, name, program, state, line)?;
        all = all && same;
    }
    Ok(all)
}

/// The program of a trace, with what the analysis knows of it.
fn program_of(rt: &(impl Files + AllocGlobal), name: &str) -> Result<Analysed> {
    let alloc = rt.alloc();
    let source = format!(in alloc; "traces/{name}.c")?;
    let points = points_of(rt, source.as_str())?.context("no program")?;
    analyse(alloc, points)?.context("no labels")
}

/// The schedule of a trace.
fn schedule_of(rt: &(impl Files + AllocGlobal), name: &str) -> Result<String> {
    let file = format!(in rt.alloc(); "traces/{name}.steps")?;
    let steps = fs::read_to_string(rt, file.as_str())?;
    Ok(steps)
}

/// The first state, where main has these arguments.
fn first_state(alloc: Global, points: &Points, args: &[Vec<u8>]) -> Result<State, NoMemory> {
    if args.len() > MOST {
        return Err(NoMemory);
    }
    start(alloc, points, args)
}

/// Runs a program from its first state on by a schedule, prints the steps that differ,
/// and answers whether none does.
fn runs_so<R: AllocGlobal + Print>(
    rt: &R,
    name: &str,
    program: &Analysed,
    args: &[Vec<u8>],
    steps: &str,
) -> Result<bool> {
    let mut state = first_state(rt.alloc(), &program.points, args)?;
    come_so(rt, name, program, &mut state, steps)
}

/// Runs a trace, prints the steps that differ, and answers whether none does.
pub(crate) fn run_trace<R: Files + AllocGlobal + Print>(
    rt: &R,
    name: &str,
    args: &[Vec<u8>],
) -> Result<bool> {
    let program = program_of(rt, name)?;
    let steps = schedule_of(rt, name)?;
    runs_so(rt, name, &program, args, steps.as_str())
}
