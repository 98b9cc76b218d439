//! `conformance`: runs whole commands over files (`commands`), and small programs step by step (`traces`),
//! and compares what each answers with what is expected.
//!
//! Two files list the cases, `cases.txt` those of commands and `traces/traces.txt` those of programs. In
//! both, and in the schedules of programs, a line that is empty or begins with `#` is for the reader.
#![tactic(auto)]

mod commands;
mod traces;

use anyhow::{Context, Result};
use lk_cases::is_case;
use std::fs;
use std::process::ExitCode;
use std::rt::Files;

/// A list of cases.
#[derive(Clone, Copy)]
enum List {
    /// Whole commands.
    Commands,
    /// Programs that are run step by step.
    Traces,
}

/// The file in which a list stands.
fn file_of(list: List) -> &'static str {
    match list {
        List::Commands => "cases.txt",
        List::Traces => "traces/traces.txt",
    }
}

/// Runs the case of a line of a list, prints what differs, and answers whether nothing does.
fn passes<R: Files + AllocGlobal + Print>(rt: &R, list: List, line: &str) -> Result<bool> {
    match list {
        List::Commands => commands::passes(rt, line),
        List::Traces => traces::passes(rt, line),
    }
}

/// Runs the cases of a list, and puts behind the answers of others whether each passes.
fn run_list<R: Files + AllocGlobal + Print>(
    rt: &R,
    list: List,
    answers: &mut Vec<bool>,
) -> Result<()> {
    let file = file_of(list);
    let text = fs::read_to_string(rt, file).context(format_args!("reading {file}"))?;
    for line in text.as_str().lines().filter(|line| is_case(line)) {
        answers.push(passes(rt, list, line)?)?;
    }
    Ok(())
}

/// Runs all cases, prints how many passed, and answers whether all did.
fn run_all<R: Files + AllocGlobal + Print>(rt: &R) -> Result<bool> {
    let mut answers = Vec::new(rt.alloc());
    run_list(rt, List::Commands, &mut answers)?;
    run_list(rt, List::Traces, &mut answers)?;
    let passed = answers.iter().filter(|passes| **passes).count();
    let failed = answers.len() - passed;
    println!(rt; "{passed} passed, {failed} failed")?;
    Ok(failed == 0)
}

fn main(rt: HostRuntime) -> Result<ExitCode> {
    let all_passed = run_all(&rt)?;
    Ok(if all_passed {
        ExitCode::SUCCESS
    } else {
        ExitCode::FAILURE
    })
}
