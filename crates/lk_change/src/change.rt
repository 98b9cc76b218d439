//! What a step changes.

use lk_base::Seq;
use lk_cells::Initial;
use lk_values::{Cell, Condition, Mutex, Pointer, Value};

/// What a step changes.
#[derive(Drop)]
pub enum Change {
    /// The thread goes on in its function.
    Goes(Going),
    /// It enters a function.
    Enter(Call),
    /// It returns to the frame that called, which gets the value where there is one and goes to the point.
    Leave(Option<Value>, u32),
    /// The thread ends.
    EndThread,
    /// The process ends.
    EndProcess,
}

/// How a thread goes on in its function: the value of its point, where it goes, and what else it changes.
#[derive(Drop)]
pub struct Going {
    /// The value that the point gives, where it gives one.
    pub gives: Option<Value>,
    /// Where the thread goes.
    pub turn: Turn,
    /// What else it changes.
    pub effect: Effect,
}

/// Where a thread goes.
#[derive(Drop)]
pub enum Turn {
    /// To this point.
    To(u32),
    /// It stays at the point, which comes next to the cell that the pointer names.
    OnAt(Pointer),
}

/// What a step changes beside the value of its point.
#[derive(Drop)]
pub enum Effect {
    /// Nothing.
    Nothing,
    /// Puts a value into a slot of the frame.
    PutSlot(u32, Value),
    /// Puts a value into a cell.
    PutValue(Cell, Value),
    /// Puts a mutex into a state.
    PutMutex(Cell, Mutex),
    /// Puts a condition variable into a state.
    PutCondition(Cell, Condition),
    /// Begins a thread.
    Begin(Call),
    /// Joins the thread of this number.
    Join(u32),
    /// Detaches the thread of this number.
    Detach(u32),
    /// Makes an object.
    Bear(Birth),
    /// Ends the life of the object of this number.
    End(u32),
}

/// A function that is entered.
#[derive(Drop)]
pub struct Call {
    /// Its number.
    pub function: u32,
    /// The point at which it begins.
    pub entry: u32,
    /// Its arguments.
    pub args: Seq<Value>,
}

/// An object that is made: allocated (C99 7.20.3).
#[derive(Clone, Copy)]
pub struct Birth {
    /// Its root.
    pub root: u32,
    /// How many elements it has.
    pub length: u64,
    /// What its cells hold at first.
    pub initial: Initial,
}
