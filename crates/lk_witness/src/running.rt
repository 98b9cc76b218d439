//! Runs, a step at a time, with what each thread is about to touch.
ghost use Rattle.std.specs.Prelude.{◌≡◌, ◌<◌, ◌+◌, IfOk};
ghost use Rattle.lk_birth.specs.Starts.{IsSmall};
ghost use Rattle.lk_witness.specs.Calls.{IsGone};

use lk_base::NoMemory;
use lk_birth::start;
use lk_cells::State;
use lk_facts::{Action, Points};
use lk_meaning::{Stepped, Touched, location, step, touch};
use std::alloc::Global;

/// How many steps a search may still take.
#[derive(Clone, Copy)]
pub(crate) struct Steps {
    /// So many.
    pub(crate) left: u64,
}

/// What a thread is about to do.
#[derive(Drop)]
pub(crate) struct Ahead {
    /// The cell that it is about to touch, where it is about to touch one.
    pub(crate) touched: Option<Touched>,
    /// The location of that cell, where it has one.
    pub(crate) location: Option<u32>,
}

/// A run so far.
#[derive(Drop)]
pub(crate) struct Running {
    /// The state to which it came.
    pub(crate) state: State,
    /// What each thread is about to do, by the numbers of the threads.
    pub(crate) ahead: Vec<Ahead>,
}

/// What came of a step.
#[derive(Drop)]
pub(crate) enum Gone {
    /// The thread moved.
    Moved(Running),
    /// It waits.
    Waits(Running),
    /// It has ended.
    Ended(Running),
    /// The run ends: the step is undefined, or would make a number that none may have.
    Over,
}

/// What a thread is about to do in a state.
fn ahead_of(points: &Points, state: &State, thread: u32) -> Result<Ahead, NoMemory> {
    let touched = touch(points, state, thread)?;
    let location = match &touched {
        Some(found) => location(points, state, &found.cell),
        None => None,
    };
    Ok(Ahead { touched, location })
}

/// Puts what a thread is about to do in the place of what it was.
fn put_ahead(ahead: &mut Vec<Ahead>, thread: usize, own: Ahead) {
    if thread < ahead.len() {
        ahead[thread] = own;
    }
}

/// What the threads are about to do after a step of this one, which may have made another.
fn renewed(
    points: &Points,
    state: &State,
    ahead: Vec<Ahead>,
    thread: u32,
) -> Result<Vec<Ahead>, NoMemory>
    requires { IsSmall state.now }
{
    let mut ahead = ahead;
    let own = ahead_of(points, state, thread)?;
    put_ahead(&mut ahead, thread as usize, own);
    let known = ahead.len();
    if known < state.threads.len() {
        ahead.push(ahead_of(points, state, known as u32)?)?;
    }
    Ok(ahead)
}

/// A run that came to a state by a step of a thread.
fn moved(points: &Points, state: State, ahead: Vec<Ahead>, thread: u32) -> Result<Running, NoMemory>
    requires { IsSmall state }
    ensures { IfOk result (λ running. IsSmall running.state) }
{
    match renewed(points, &state, ahead, thread) {
        Ok(ahead) => Ok(Running { state, ahead }),
        Err(NoMemory) => Err(NoMemory),
    }
}

/// The run without a step.
pub(crate) fn begin(alloc: Global, points: &Points) -> Result<Running, NoMemory>
    ensures { IfOk result (λ running. IsSmall running.state) }
{
    let state = start(alloc, points, &[])?;
    moved(points, state, Vec::new(alloc), 0)
}

/// What comes of a step of a thread with a word. It takes one of the steps that are left.
pub(crate) fn go(
    alloc: Global,
    points: &Points,
    steps: &mut Steps,
    running: Running,
    thread: u32,
    word: u64,
) -> Result<Gone, NoMemory>
    requires small { IsSmall running.state }
    requires some { 0 < steps.old.left }
    ensures gone { IfOk result IsGone }
    ensures fewer { steps.new.left + 1 ≡ steps.old.left }
{
    steps.left -= 1;
    let Running { state, ahead } = running;
    match step(alloc, points, state, thread, word) {
        Stepped::Moved(state, _event) => Ok(Gone::Moved(moved(points, state, ahead, thread)?)),
        Stepped::Waits(state) => Ok(Gone::Waits(Running { state, ahead })),
        Stepped::Ended(state) => Ok(Gone::Ended(Running { state, ahead })),
        Stepped::Undefined(_, _) | Stepped::NoSuchThread(_) | Stepped::Full(_) => Ok(Gone::Over),
        Stepped::NoMemory(_) => Err(NoMemory),
    }
}

impl Running {
    /// Whether a thread is about to touch a cell.
    pub(crate) fn is_touching(&self, thread: u32) -> bool {
        match self.ahead.get(thread as usize) {
            Some(own) => own.touched.is_some(),
            None => false,
        }
    }

    /// The location that a thread is about to touch.
    pub(crate) fn location_of(&self, thread: u32) -> Option<u32> {
        let own = self.ahead.get(thread as usize)?;
        own.location
    }

    /// Whether the word makes a choice of the next step of a thread.
    pub(crate) fn asks(&self, points: &Points, thread: u32) -> bool {
        match self.state.threads.get(thread as usize) {
            Some(found) => {
                found.frame.point < points.count() && asks_word(points.action(found.frame.point))
            }
            None => false,
        }
    }

    /// Whether the next step of a thread makes an object or a thread, if its word isn't 0.
    pub(crate) fn makes(&self, points: &Points, thread: u32) -> bool {
        match self.state.threads.get(thread as usize) {
            Some(found) => {
                found.frame.point < points.count() && is_making(points.action(found.frame.point))
            }
            None => false,
        }
    }

    /// The location at which a thread races with another one.
    pub(crate) fn met(&self, thread: u32) -> Option<u32> {
        let own = self.ahead.get(thread as usize)?;
        let touched = own.touched.as_ref()?;
        if self.state.lives(touched.cell.object) && self.has_other(thread as usize, touched) {
            own.location
        } else {
            None
        }
    }

    /// Whether another thread is about to touch the same cell, one of both writing.
    fn has_other(&self, thread: usize, touched: &Touched) -> bool {
        for other in 0..self.ahead.len() {
            if other != thread && is_race(&self.ahead[other], touched) {
                return true;
            }
        }
        false
    }
}

/// Whether a thread that is about to do this races with one that is about to touch a cell.
fn is_race(ahead: &Ahead, touched: &Touched) -> bool {
    match &ahead.touched {
        Some(found) => (found.writes || touched.writes) && found.cell.same(&touched.cell),
        None => false,
    }
}

/// Whether the word says whether a step makes an object or a thread.
fn is_making(action: &Action) -> bool {
    matches!(action, Action::Create { .. } | Action::Allocate { .. })
}

/// Whether the word makes a choice of a step.
fn asks_word(action: &Action) -> bool {
    is_making(action) || matches!(action, Action::Compute { .. } | Action::Scan(_))
}
