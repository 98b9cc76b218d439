//! States of a program that runs: its objects, and its threads with their frames.
ghost use Rattle.std.specs.Prelude.{◌≡◌, ◌<◌, ◌^◌, length};
ghost use Rattle.lk_cells.specs.Places as spec;

use crate::object::Object;
use lk_base::Seq;
use lk_values::{Pointer, Table, Value};

/// An object that a frame's local is.
#[derive(Clone, Copy)]
pub struct Local {
    /// The root of the local.
    pub root: u32,
    /// The number of its object.
    pub object: u32,
}

/// A frame: one execution of a function (C99 6.2.4, 6; 6.5.2.2).
#[derive(Drop)]
pub struct Frame {
    /// The point at which it stands.
    pub point: u32,
    /// The values of its slots, which are the locals and parameters whose address isn't taken.
    pub slots: Seq<Value>,
    /// What its points gave when they were last performed: a value, or none.
    pub values: Table<u32, Option<Value>>,
    /// The objects of its other locals and parameters.
    pub locals: Seq<Local>,
    /// The thread that its last creation made.
    pub created: Option<u32>,
    /// Where a point that goes from cell to cell stands next, after its first cell.
    pub next_cell: Option<Pointer>,
}

/// A thread (POSIX Base Definitions 3.396). Its number is its place in the list of a state's threads.
#[derive(Drop)]
pub struct Thread {
    /// The frame of the function that it executes.
    pub frame: Frame,
    /// The frames of the functions that it was called from, the oldest first.
    pub below: Seq<Frame>,
    /// Whether it has ended.
    pub ended: bool,
    /// Whether another thread has joined it.
    pub joined: bool,
    /// Whether it was detached.
    pub detached: bool,
}

/// A state of a program that runs.
pub struct State {
    /// The objects, in the order of their births.
    pub objects: Seq<Object>,
    /// The threads, in the order of their creations; the first one runs `main`.
    pub threads: Seq<Thread>,
    /// Whether the process has ended.
    pub ended: bool,
}

impl Drop for State {
    fn drop(self) {
        let State {
            objects: _objects,
            threads: _threads,
            ended: _ended,
        } = self;
    }
}

impl State {
    /// How many threads there are. Those below it are their numbers. It takes no memory.
    pub fn threads(&self) -> u32
        requires { length self.now.threads < 2 ^ 32 }
        ensures { result ≡ length self.now.threads }
    {
        self.threads.len() as u32
    }

    /// Whether the object of this number lives (C99 6.2.4). It takes no memory.
    pub fn lives(&self, object: u32) -> bool
        ensures { result ≡ spec.lives self.now object }
    {
        match self.objects.get(object as usize) {
            Some(found) => found.lives,
            None => false,
        }
    }
}
