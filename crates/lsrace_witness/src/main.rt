//! `lsrace-witness`: looks for schedules that show the races at suspect locations of C programs with POSIX threads.
#![tactic(auto)]

use lk_base::{NoMemory, Status};
use lk_confirm::run;
use lk_io::{FileShelf, StdSink};
use std::env;
use std::io::ErrorKind;
use std::process::ExitCode;
use std::rt::Env;

/// The words behind the program's name, or none where one of them is no text.
fn command_words(rt: &(impl Env + AllocGlobal)) -> Result<Vec<String>, NoMemory> {
    match env::args(rt) {
        Ok(words) => Ok(words.skip(1).collect(rt.alloc())?),
        Err(error) if error.kind() == ErrorKind::OutOfMemory => Err(NoMemory),
        Err(_) => Ok(Vec::new(rt.alloc())),
    }
}

fn main(rt: HostRuntime) -> ExitCode {
    let status = match command_words(&rt) {
        Ok(words) => run(
            rt.alloc(),
            &words,
            &mut FileShelf::new(&rt),
            &mut StdSink::new(rt.stdout()),
            &mut StdSink::new(rt.stderr()),
        ),
        Err(NoMemory) => {
            let _ = eprintln!(rt; "lsrace-witness: no memory");
            Status::NoMemory
        }
    };
    ExitCode::from(status.number())
}
