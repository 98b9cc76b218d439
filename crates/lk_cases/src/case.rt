//! A case of the list.

use anyhow::{Context, Result, bail};
use std::alloc::Global;

/// The most bytes that a command may write to one of its outputs, where its case doesn't say.
const ROOM: usize = 1 << 20;

/// What fails in a case, and how much its outputs take.
#[derive(Clone, Copy)]
pub struct Limits {
    /// The read that fails, counted from 1.
    pub read_fails: Option<u64>,
    /// The write to standard output that fails, counted from 1.
    pub write_fails: Option<u64>,
    /// The write to standard error that fails, counted from 1.
    pub err_fails: Option<u64>,
    /// How many bytes standard output takes in all, and standard error.
    pub room: usize,
    pub err_room: usize,
    /// How many bytes standard output takes at once.
    pub most: usize,
}

/// A command, and the status that is expected of it. What it must write stands in files of the case's name.
#[derive(Drop)]
pub struct Case<'a> {
    pub name: &'a str,
    pub status: u8,
    pub limits: Limits,
    pub words: Vec<String>,
}

/// Whether a line of the list is a case. A line that is empty or begins with `#` is for the reader.
pub fn is_case(line: &str) -> bool {
    !line.is_empty() && !line.starts_with('#')
}

/// Reads a case of the list: its name, its status, its limits as `key=number`, and the words of its command.
pub fn parse_case(alloc: Global, line: &str) -> Result<Case<'_>> {
    let mut words = line.split_whitespace();
    let name = words.next().context("a line without a name")?;
    let status = words.next().context("a line without a status")?.parse()?;
    let mut limits = Limits {
        read_fails: None,
        write_fails: None,
        err_fails: None,
        room: ROOM,
        err_room: ROOM,
        most: ROOM,
    };
    let mut command = Vec::new(alloc);
    for word in words {
        match word.split_once('=') {
            Some((key, number)) if command.is_empty() => limits.set(key, number)?,
            _ => command.push(String::from_str(alloc, word)?)?,
        }
    }
    Ok(Case {
        name,
        status,
        limits,
        words: command,
    })
}

impl Limits {
    /// Sets the limit of a key.
    fn set(&mut self, key: &str, number: &str) -> Result<()> {
        let number: u32 = number.parse()?;
        match key {
            "read_fails" => self.read_fails = Some(u64::from(number)),
            "write_fails" => self.write_fails = Some(u64::from(number)),
            "err_fails" => self.err_fails = Some(u64::from(number)),
            "room" => self.room = number as usize,
            "err_room" => self.err_room = number as usize,
            "most" => self.most = number as usize,
            _ => bail!("no limit has this name"),
        }
        Ok(())
    }
}
